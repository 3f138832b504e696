// A call on a register and a book, stage by stage: the slots that pass, then what is left to be done. Promise: as specs/Stages.antt says.
ghost use Rattle.std.specs.Prelude.{◌≡◌, map, ◌-◌, ◌<◌, ltb, length, Ok};
ghost use Rattle.limits.specs.Limits.{slot_times, records};
ghost use Rattle.std.specs.List.{count_by};
ghost use Rattle.laws.specs.Counting.{sum};
ghost use Rattle.ship.specs.declared.Station.{Station as Record};
ghost use Rattle.walks.specs.Out.{Ends};
ghost use Rattle.register.specs.State.{tallies_in, with_hold};
ghost use Rattle.calls.specs.declared.told.Task.TheVariants.{Choose as ToChoose, Report as ToReport, New as ToBegin};
ghost use Rattle.calls.specs.Stages.{Sized, drawn_by, FitTask, Fit, PassesOne, Upto, pass_out, Replans, done_out, carried_out};

use crate::told::{Case, Task};
use book::{Channel, NONE, Watch, clear, new_watch, put, release, step_on};
use choosing::own::{Owning, outcome, own_frames};
use choosing::{Wanted, ask, judge, scan};
use hearing::{Hearing, hear};
use limits::SLOT_TIMES;
use numbers::Refusal;
use plan::Plan;
use register::{Answer, Reply, Turn, Turns, run};
use reporting::Time;
use ship::{Station, blank};

// ---- slots that pass

// So many slots pass, from a watch on.
#[derive(Clone, Copy)]
struct Passing {
    watch: Watch,
    passes: u16,
}

impl Turns for Passing {
    ghost stands = { λ r ys bs t zs cs. Upto r.watch r.passes ys bs t zs cs };

    ghost more = { λ t. ltb 0 t.left };

    ghost left = { λ t. t.left };

    fn is_left(&self, t: Turn) -> bool {
        t.left > 0
    }

    fn step(&self, book: &mut [u16], t: Turn) -> Turn {
        pass_slot(book, t)
    }
}

// The present slot becomes free, and now moves on by one.
fn pass_slot(book: &mut [u16], t: Turn) -> Turn
    requires { (length book.old ≡ slot_times) × (0 < t.left) }
    ensures { PassesOne book.old t result book.new }
{
    let p = t.at % SLOT_TIMES;
    Turn {
        handing: put(book, t.handing.counts, p, NONE),
        at: step_on(p),
        left: t.left - 1,
        marks: 0,
    }
}

fn pass_slots(reg: &mut [Station], book: &mut [u16], watch: Watch, passes: u16) -> Watch
    requires { Sized reg.old book.old }
    ensures { Ends (pass_out watch passes reg.old book.old) result reg.new book.new }
{
    let passing = Passing { watch, passes };
    let t = run(
        reg,
        book,
        Turn::begin(watch.channel.counts, watch.present, passes as usize),
        &passing,
    );
    Watch {
        present: t.at,
        channel: Channel {
            counts: t.handing.counts,
            ..watch.channel
        },
        ..watch
    }
}

// A hold-off above 0 falls by one with each slot.
fn age(reg: &mut [Station], passes: u16)
    ensures { reg.new ≡ map (λ (s : Record). with_hold s (s.hold - passes)) reg.old }
{
    for s in reg.iter_mut() {
        s.hold = s.hold.saturating_sub(passes);
    }
}

// ---- what is left to be done

// The slot is drawn, from the book and, where it is needed, from the register.
fn draw_slot(reg: &[Station], book: &[u16], watch: Watch, a: Wanted) -> Result<Owning, Refusal>
    requires { FitTask (Ok (ToChoose a)) watch.channel.plan reg.now book.now }
    ensures { result ≡ drawn_by reg.now book.now watch a }
{
    let q = ask(book, watch, a);
    let best = scan(reg, book, q);
    outcome(q, judge(book, q, best))
}

// It becomes ours.
fn choose(reg: &mut [Station], book: &mut [u16], watch: Watch, a: Wanted) -> Reply
    requires { FitTask (Ok (ToChoose a)) watch.channel.plan reg.old book.old }
    ensures { Ends (done_out (Ok (ToChoose a)) watch reg.old book.old) result reg.new book.new }
{
    let drawn = draw_slot(reg, book, watch, a);
    own_frames(reg, book, watch, drawn)
}

fn replan(book: &mut [u16], watch: Watch, plan: Plan) -> Reply
    ensures { Replans book.old watch plan result book.new }
{
    let counts = release(book, watch.channel.counts);
    Reply {
        watch: Watch {
            channel: Channel { counts, plan },
            ..watch
        },
        answer: Ok(Answer::Planned),
    }
}

// How many records have a tally above 0.
fn heard(reg: &[Station]) -> usize
    ensures { result ≡ count_by (λ (s : Record). ltb 0 s.tally) reg.now }
{
    reg.iter().filter(|s| s.tally > 0).count()
}

fn report(reg: &[Station], book: &[u16], watch: Watch, t: Time) -> Reply
    requires { FitTask (Ok (ToReport t)) watch.channel.plan reg.now book.now }
    ensures { Ends (done_out (Ok (ToReport t)) watch reg.now book.now) result reg.now book.now }
{
    let told = reporting::report(book, heard(reg), watch.present, watch.channel.plan, t);
    Reply {
        watch,
        answer: told.map(Answer::Report),
    }
}

// An empty register and book, and the first watch.
fn begin(reg: &mut [Station], book: &mut [u16], watch: Watch) -> Reply
    requires { Sized reg.old book.old }
    ensures { Ends (done_out (Ok ToBegin) watch reg.old book.old) result reg.new book.new }
{
    reg.fill(blank());
    clear(book);
    Reply {
        watch: new_watch(),
        answer: Ok(Answer::Begun),
    }
}

// All tallies together.
fn total(reg: &[Station]) -> u32
    requires { length reg.now ≡ records }
    ensures { result ≡ sum (tallies_in reg.now) }
{
    // A loop, in which a tally is known to be small: `sum` asks beforehand that the sum fits.
    let mut n: u32 = 0;
    for s in reg.iter() {
        n += u32::from(s.tally);
    }
    n
}

#[tactic(auto, unfolding(crate::specs::Stages::done_task))]
fn answer(reg: &mut [Station], book: &mut [u16], watch: Watch, task: Result<Task, Refusal>) -> Reply
    requires { FitTask task watch.channel.plan reg.old book.old }
    ensures { Ends (done_out task watch reg.old book.old) result reg.new book.new }
{
    match task {
        Ok(Task::Nothing) => Reply {
            watch,
            answer: Ok(Answer::Passed),
        },
        Ok(Task::Hear(telling)) => hear(reg, book, Hearing { watch, telling }),
        Ok(Task::Plan(p)) => replan(book, watch, p),
        Ok(Task::Own(ship)) => Reply {
            watch: Watch { ship, ..watch },
            answer: Ok(Answer::Set),
        },
        Ok(Task::Choose(a)) => choose(reg, book, watch, a),
        Ok(Task::Report(t)) => report(reg, book, watch, t),
        Ok(Task::New) => begin(reg, book, watch),
        Ok(Task::Sum) => Reply {
            watch,
            answer: Ok(Answer::Sum(total(reg))),
        },
        Err(r) => Reply {
            watch,
            answer: Err(r),
        },
    }
}

// The slots pass, the records grow older, and the rest is done. `answer` is called at one place, so that a compiler takes it in: at two, each call would have its
// stack below this one's, and a refusal would take half as long again.
pub fn carry(reg: &mut [Station], book: &mut [u16], c: Case) -> Reply
    requires { Fit reg.old book.old c }
    ensures { Ends (carried_out c reg.old book.old) result reg.new book.new }
{
    let mut watch = c.watch;
    if c.passes > 0 {
        watch = pass_slots(reg, book, watch, c.passes);
        age(reg, c.passes);
    }
    answer(reg, book, watch, c.task)
}
