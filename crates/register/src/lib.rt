// The lent register and the state that the calls go on: who has lost a slot time and who has got it has its tally follow, in its own record. Promises: `lose` and
// `win` change one record each, and that one as specs/Register.antt says; `run` does what is to be done at each slot time of a run, for whatever that is, and both
// records follow; specs/State.antt has the state, and what becomes of it where something is done to the book. Register and book are lent as slices, side by
// side, also by C, and stay so: `call` refuses other lengths by number, each call at its own place in the order, and to make arrays of them after that would be
// a step that can fail.
#![tactic(auto)]

ghost use Rattle.std.specs.Prelude.{◌≡◌, ◌<◌, ℕ, Bool, false, List, length};
ghost use Rattle.limits.specs.Limits.{records, slot_times};
ghost use Rattle.ship.specs.declared.Station.{Station as Record};
ghost use Rattle.register.specs.Register.{begun, less_by, more_by, lost_in, won_in};
ghost use Rattle.register.specs.Runs.{MayStep, Keeps};

use book::tally::{down, up};
use book::{Counts, Handing, NONE, OWN, Watch, is_record, record_of};
use message::state::SubMessage;
use numbers::Refusal;
use ship::Station;

const HOLD_OFF: u16 = limits::HOLD_OFF as u16;

// A run over slot times, between two of them: what was done to the last one; the next one; how many are left, and how many counted.
#[derive(Clone, Copy)]
pub struct Turn {
    pub handing: Handing,
    pub at: usize,
    pub left: usize,
    pub marks: usize,
}

impl Turn {
    // Before the first slot time of a run: nothing is done yet, and none has counted.
    pub fn begin(counts: Counts, at: usize, left: usize) -> Turn
        ensures { result ≡ begun counts at left }
    {
        Turn {
            handing: Handing {
                counts,
                old: NONE,
                new: NONE,
            },
            at,
            left,
            marks: 0,
        }
    }
}

// A station that was heard, and how many slot times are its by this report.
#[derive(Clone, Copy)]
pub struct Marks {
    pub source: u32,
    pub marks: usize,
}

// An own slot: how far ahead, its slot number, out of how many candidates, and how many marks it replaced.
#[derive(Clone, Copy)]
pub struct Slot {
    pub distance: usize,
    pub slot: usize,
    pub candidates: usize,
    pub replaced: usize,
}

#[derive(Clone, Copy)]
pub enum Answer {
    Passed,
    Heard(Marks),
    Planned,
    Set,
    Chosen(Slot),
    Report(SubMessage),
    Begun,
    Sum(u32),
}

// The answer, or the refusal, and the watch after the call.
#[derive(Clone, Copy)]
pub struct Reply {
    pub watch: Watch,
    pub answer: Result<Answer, Refusal>,
}

// The record of the station that lost a slot time: one less, and held off where the slot time became ours.
#[tactic(auto, unfolding(crate::specs::Register::less_by))]
fn less(s: Station, t: Turn) -> Station
    ensures { result ≡ less_by s t }
{
    if !is_record(t.handing.old) {
        return s;
    }
    let mut r = s;
    r.tally = down(s.tally);
    if t.handing.new == OWN {
        r.hold = HOLD_OFF;
    }
    r
}

// The record of the station that got it: one more.
#[tactic(auto, unfolding(crate::specs::Register::more_by))]
fn more(s: Station, t: Turn) -> Station
    ensures { result ≡ more_by s t }
{
    if !is_record(t.handing.new) {
        return s;
    }
    Station {
        tally: up(s.tally),
        ..s
    }
}

// Two functions, and not one that is told who and what: with the change as a parameter neither clause was proved.
pub fn lose(reg: &mut [Station], t: Turn)
    requires { length reg.old ≡ records }
    ensures { reg.new ≡ lost_in reg.old t }
{
    let k = record_of(t.handing.old);
    reg[k] = less(reg[k], t);
}

pub fn win(reg: &mut [Station], t: Turn)
    requires { length reg.old ≡ records }
    ensures { reg.new ≡ won_in reg.old t }
{
    let k = record_of(t.handing.new);
    reg[k] = more(reg[k], t);
}

// What is done at each slot time of a run. What is known of the run between two of them holds again after each, once the records have followed.
pub trait Turns {
    ghost use Rattle.register.specs.declared.Turn.{Turn};

    // of a run that began with a register and a book: where it stands, at a turn, with both as they are then
    ghost stands: { Self → List Record → List ℕ → Turn → List Record → List ℕ → Type 0 };

    ghost more: { Turn → Bool };

    ghost left: { Turn → ℕ };

    fn is_left(&self, t: Turn) -> bool
        ensures { result ≡ more t };

    fn step(&self, book: &mut [u16], t: Turn) -> Turn
        requires { MayStep (stands self.now) more book.old t }
        ensures keeps { Keeps (stands self.now) t book.old result book.new }
        ensures nears { left result < left t };
}

// The run, from the turn t on: at each slot time what is to be done, and then the record that lost it and the one that got it follow.
pub fn run<R: Turns>(reg: &mut [Station], book: &mut [u16], t: Turn, r: &R) -> Turn
    requires many { length reg.old ≡ records }
    requires size { length book.old ≡ slot_times }
    requires begins { R.stands r.now reg.old book.old t reg.old book.old }
    ensures stands { R.stands r.now reg.old book.old result reg.new book.new }
    ensures done { R.more result ≡ false }
{
    let mut turn = t;
    while r.is_left(turn) {
        turn = r.step(book, turn);
        lose(reg, turn);
        win(reg, turn);
    }
    turn
}
