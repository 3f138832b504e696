// The communication state, 19 bits at the end of a message, taken apart. Promise: it is read and written as specs/State.antt says.
ghost use Rattle.std.specs.Prelude.{◌≡◌, ◌<◌};
ghost use Rattle.message.specs.State.{time_out_of};
ghost use Rattle.message.specs.Sheet.{clock_from, sub_from, organised_parts, organised_from, incremental_from, state_from, StandsIn, clock_value, value_of, organised_four, incremental_four, organised_value, incremental_value};

use bits::row::{Four, Widths};

// The widths of a state: sync, time-out and 14 bits, or sync, increment, code and keep; and of the clock in those 14 bits: hour, minute and
// two that are unused.
const ORGANISED: Widths = Widths(2, 3, 14, 0);

const INCREMENTAL: Widths = Widths(2, 13, 3, 1);

const CLOCK: Widths = Widths(5, 7, 2, 0);

#[derive(Clone, Copy)]
pub struct Clock {
    pub hour: u32,
    pub minute: u32,
    pub unused: u32,
}

// A sub-message that every other time-out has; the pairs say which of them.
#[derive(Clone, Copy)]
pub struct Counted {
    pub pairs: u8,
    pub number: u32,
}

#[derive(Clone, Copy)]
pub enum SubMessage {
    // time-out 0: the offset
    Offset(u32),
    // time-out 1
    Time(Clock),
    // time-out 2, and two more for each pair: the slot number
    Slot(Counted),
    // time-out 3, and two more for each pair: stations received
    Stations(Counted),
}

#[derive(Clone, Copy)]
pub struct SelfOrganised {
    pub sync: u32,
    pub sub: SubMessage,
}

#[derive(Clone, Copy)]
pub struct Incremental {
    pub sync: u32,
    pub increment: u32,
    pub code: u32,
    pub keep: u32,
}

#[derive(Clone, Copy)]
pub enum State {
    SelfOrganised(SelfOrganised),
    Incremental(Incremental),
}

pub fn clock_in(v: u32) -> Clock
    ensures { result ≡ clock_from v }
{
    let f = CLOCK.split(v);
    Clock {
        hour: f.a,
        minute: f.b,
        unused: f.c,
    }
}

// What the last 14 bits, v, say where the time-out is t. A list of numbers (crate listing) and a report (reporting) choose by the time-out too, but have their
// numbers from elsewhere, and only the one that is wanted.
fn sub_in(t: u32, v: u32) -> SubMessage
    requires { t < 8 }
    ensures { result ≡ sub_from t v }
{
    if t == 0 {
        return SubMessage::Offset(v);
    }
    if t == 1 {
        return SubMessage::Time(clock_in(v));
    }
    if t % 2 == 0 {
        return SubMessage::Slot(Counted {
            pairs: ((t - 2) / 2) as u8,
            number: v,
        });
    }
    SubMessage::Stations(Counted {
        pairs: ((t - 3) / 2) as u8,
        number: v,
    })
}

// Sync, time-out and 14 bits of the 19, v.
pub fn organised_parts(v: u32) -> Four
    ensures { result ≡ organised_parts v }
{
    ORGANISED.split(v)
}

pub fn organised_in(v: u32) -> SelfOrganised
    ensures { result ≡ organised_from v }
{
    let f = organised_parts(v);
    let sub = sub_in(f.b, f.c);
    SelfOrganised { sync: f.a, sub }
}

fn incremental_in(v: u32) -> Incremental
    ensures { result ≡ incremental_from v }
{
    let f = INCREMENTAL.split(v);
    Incremental {
        sync: f.a,
        increment: f.b,
        code: f.c,
        keep: f.d,
    }
}

// What the 19 bits, v, say in a message of this id, which is a number: see `Head` in reading.rt.
#[tactic(auto, unfolding(crate::specs::Sheet::state_from))]
pub fn state_in(id: u32, v: u32) -> State
    ensures { result ≡ state_from id v }
{
    if id == 3 {
        return State::Incremental(incremental_in(v));
    }
    State::SelfOrganised(organised_in(v))
}

// The self-organised state, where it has been taken apart or not.
pub fn organised_of(state: State, v: u32) -> SelfOrganised
    requires { StandsIn v state }
    ensures { result ≡ organised_from v }
{
    match state {
        State::SelfOrganised(s) => s,
        State::Incremental(_) => organised_in(v),
    }
}

pub fn time_out(sub: SubMessage) -> u32
    ensures { result ≡ time_out_of sub }
{
    match sub {
        SubMessage::Offset(_) => 0,
        SubMessage::Time(_) => 1,
        SubMessage::Slot(c) => 2 + 2 * (c.pairs as u32),
        SubMessage::Stations(c) => 3 + 2 * (c.pairs as u32),
    }
}

// The clock as 14 bits; too wide where a part of it is.
fn clock_value(c: Clock) -> u32
    ensures { result ≡ clock_value c }
{
    let four = Four {
        a: c.hour,
        b: c.minute,
        c: c.unused,
        d: 0,
    };
    four.one(CLOCK)
}

fn value(sub: SubMessage) -> u32
    ensures { result ≡ value_of sub }
{
    match sub {
        SubMessage::Offset(v) => v,
        SubMessage::Time(c) => clock_value(c),
        SubMessage::Slot(c) => c.number,
        SubMessage::Stations(c) => c.number,
    }
}

// The parts of a state as four numbers, whatever their widths.
pub fn organised_four(s: SelfOrganised) -> Four
    ensures { result ≡ organised_four s }
{
    Four {
        a: s.sync,
        b: time_out(s.sub),
        c: value(s.sub),
        d: 0,
    }
}

pub fn incremental_four(s: Incremental) -> Four
    ensures { result ≡ incremental_four s }
{
    Four {
        a: s.sync,
        b: s.increment,
        c: s.code,
        d: s.keep,
    }
}

// The state as one number of 19 bits; too wide where a part of it is.
pub fn organised_value(s: SelfOrganised) -> u32
    ensures { result ≡ organised_value s }
{
    let four = organised_four(s);
    four.one(ORGANISED)
}

pub fn incremental_value(s: Incremental) -> u32
    ensures { result ≡ incremental_value s }
{
    let four = incremental_four(s);
    four.one(INCREMENTAL)
}
