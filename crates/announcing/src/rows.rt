// Rows of slot times ahead: what a report announces.
ghost use Rattle.std.specs.Prelude.{◌≡◌, ◌+◌, ◌≤◌, min, [], ◌∷◌, leb};
ghost use Rattle.limits.specs.Limits.{slot_times, most_time_out};
ghost use Rattle.message.specs.State.{time_out_of, slots_of, distance_of};
ghost use Rattle.message.specs.declared.state.State.TheVariants.{SelfOrganised as Organised, Incremental as Increasing};
ghost use Rattle.announcing.specs.Rows.{is_empty, end_of, in_book};
ghost use Rattle.announcing.specs.Announce.{block, every_frame, offset, announces, filled_to, filled};

use limits::{FRAME, MOST_TIME_OUT, SLOT_TIMES};
use message::state::{Incremental, SelfOrganised, State, SubMessage, time_out};

// What a row does with its times: marks them for the station, or frees those that it holds.
#[derive(Clone, Copy, PartialEq, Eq)]
pub enum Kind {
    Mark,
    Free,
}

// `slots` times in a row from `from` ahead on, again `step` farther, `times` in all, and the same in `frames` frames. Its parts are as small as they may be,
// since a report keeps its rows on the stack.
#[derive(Clone, Copy)]
pub struct Row {
    pub from: usize,
    pub slots: u32,
    pub step: u16,
    pub times: u16,
    pub frames: u16,
    pub kind: Kind,
}

// The most rows of a report. One that has fewer fills up with unused ones: an array and no list with a length, so that a report with its rows can be copied,
// and a row without a time needs no test that other rows do not.
pub const ROWS: usize = 3;

// A frame and the largest time-out, as the parts of a row are.
const STEP: u16 = FRAME as u16;

const MOST: u16 = MOST_TIME_OUT as u16;

// ---- what a state announces

pub const UNUSED: Row = Row {
    from: 0,
    slots: 0,
    step: 0,
    times: 0,
    frames: 0,
    kind: Kind::Free,
};

fn block(d: usize, n: u32) -> Row
    ensures { result ≡ block d n }
{
    Row {
        from: d,
        slots: n,
        step: 0,
        times: 1,
        frames: 1,
        kind: Kind::Mark,
    }
}

fn every_frame(i: usize, n: u16, kind: Kind) -> Row
    requires { i ≤ most_time_out + 1 }
    ensures { result ≡ every_frame i n kind }
{
    Row {
        from: FRAME * i,
        slots: 1,
        step: STEP,
        times: n,
        frames: 1,
        kind,
    }
}

// The frames that are marked. A time-out above the largest is taken for it.
fn frames(sub: SubMessage) -> u16
    ensures { result ≡ min (time_out_of sub) most_time_out }
{
    time_out(sub).min(u32::from(MOST)) as u16
}

// One slot at the offset, if the time-out is 0 and the offset is not.
fn offset(sub: SubMessage) -> Row
    ensures { result ∷ [] ≡ filled_to 1 (offset sub) }
{
    match sub {
        SubMessage::Offset(d) if d > 0 => block(d as usize, 1),
        _ => UNUSED,
    }
}

#[tactic(auto, unfolding(crate::specs::Announce::announces, crate::specs::Announce::filled))]
fn organised(s: SelfOrganised) -> [Row; ROWS]
    ensures { result ≡ filled (announces (Organised s)) }
{
    let n = frames(s.sub);
    [
        every_frame(usize::from(n) + 1, MOST - n, Kind::Free),
        every_frame(1, n, Kind::Mark),
        offset(s.sub),
    ]
}

// Codes 0 to 4 announce 1 to 5 slots, codes 5 to 7 announce 1 to 3; increment 0 announces none.
#[tactic(auto, unfolding(message::specs::State::slots_of))]
fn slots(i: Incremental) -> u32
    ensures { result ≡ slots_of i }
{
    if i.increment == 0 {
        return 0;
    }
    if i.code <= 4 {
        return i.code + 1;
    }
    i.code - 4
}

// The slots of codes 5 to 7 are 8,192 farther ahead.
#[tactic(auto, unfolding(message::specs::State::distance_of))]
fn distance(i: Incremental) -> usize
    ensures { result ≡ distance_of i }
{
    let d = i.increment as usize;
    if i.code <= 4 {
        return d;
    }
    d + 8192
}

// Keep 1 keeps the slot in the next frame.
#[tactic(auto, unfolding(crate::specs::Announce::announces, crate::specs::Announce::filled))]
fn incremental(i: Incremental) -> [Row; ROWS]
    ensures { result ≡ filled (announces (Increasing i)) }
{
    let ahead = block(distance(i), slots(i));
    if i.keep == 1 {
        return [every_frame(1, 1, Kind::Mark), ahead, UNUSED];
    }
    [ahead, UNUSED, UNUSED]
}

// Message 3 alone carries the incremental state.
pub fn announced(state: State) -> [Row; ROWS]
    ensures { result ≡ filled (announces state) }
{
    match state {
        State::SelfOrganised(s) => organised(s),
        State::Incremental(i) => incremental(i),
    }
}

// ---- whether all rows lie in the book

pub fn is_empty(r: Row) -> bool
    ensures { result ≡ is_empty r }
{
    r.slots == 0 || r.times == 0 || r.frames == 0
}

// The parts of a row are small, so they can be added up, whatever they are, once its start is known to lie in the book.
#[tactic(auto, unfolding(crate::specs::Rows::end_of))]
fn row_within(r: &Row) -> bool
    ensures { result ≡ leb (end_of r.now) slot_times }
{
    if is_empty(*r) {
        return true;
    }
    if r.from > SLOT_TIMES {
        return false;
    }
    let last = usize::from(r.step) * (usize::from(r.times) - 1)
        + FRAME * (usize::from(r.frames) - 1);
    r.from + last + r.slots as usize <= SLOT_TIMES
}

pub fn within(rows: [Row; ROWS]) -> bool
    ensures { result ≡ in_book rows }
{
    rows.iter().all(row_within)
}
