// The public calls: pass, hear, plan, own, choose, report, begin and sum are what is asked, and `call` does it on a lent register and a lent book. Promise: the answer
// and what is left are those of specs/Calls.antt, for every state and every bytes; specs/Promises.antt has "given exactly when" for each call, that a refusal
// changes nothing, and that slots which pass first are a call of their own.
#![tactic(auto)]

pub mod stages;
pub mod told;

ghost use Rattle.std.specs.Prelude.{◌≡◌};
ghost use Rattle.walks.specs.Out.{Ends};
ghost use Rattle.register.specs.State.{state_of};
ghost use Rattle.register.specs.Answers.{out_of};
ghost use Rattle.calls.specs.declared.What.TheVariants.{Nothing, Hear, Plan as ToPlan, Own, Choose, Report, New, Sum};
ghost use Rattle.calls.specs.Calls.{asked, called};

use book::Watch;
use choosing::Wanted;
use plan::Plan;
use register::Reply;
use reporting::Time;
use ship::{Ship, Station};
use stages::carry;
use told::told;

// What is to be done once the slots have passed. What is heard is lent as bytes.
#[derive(Clone, Copy)]
pub enum What {
    Nothing,
    Hear,
    Plan(Plan),
    Own(Ship),
    Choose(Wanted),
    Report(Time),
    New,
    Sum,
}

// How many slots pass first, and what is to be done then.
#[derive(Clone, Copy)]
pub struct Ask {
    pub watch: Watch,
    pub passes: u16,
    pub what: What,
}

// One function for each call of document 01, by its name: documents and callers name them.
fn asking(w: Watch, n: u16, what: What) -> Ask
    ensures { result ≡ asked w n what }
{
    Ask {
        watch: w,
        passes: n,
        what,
    }
}

// A new book and register: 20.
pub fn begin(w: Watch) -> Ask
    ensures { result ≡ asked w 0 New }
{
    asking(w, 0, What::New)
}

// One slot passes: 20.
pub fn pass_one(w: Watch) -> Ask
    ensures { result ≡ asked w 1 Nothing }
{
    asking(w, 1, What::Nothing)
}

// n slots pass: 20.
pub fn pass(w: Watch, n: u16) -> Ask
    ensures { result ≡ asked w n Nothing }
{
    asking(w, n, What::Nothing)
}

// The message in the lent bytes is heard in the present slot: 17, 18, 20, 21, 22, 23, 35.
pub fn hear(w: Watch) -> Ask
    ensures { result ≡ asked w 0 Hear }
{
    asking(w, 0, What::Hear)
}

// A new plan: 20, 30.
pub fn plan(w: Watch, p: Plan) -> Ask
    ensures { result ≡ asked w 0 (ToPlan p) }
{
    asking(w, 0, What::Plan(p))
}

// Our own source and position: 21, 30.
pub fn own(w: Watch, s: Ship) -> Ask
    ensures { result ≡ asked w 0 (Own s) }
{
    asking(w, 0, What::Own(s))
}

// An own slot: 20, 31, 30, 32, 33, 34, 35.
pub fn choose(w: Watch, a: Wanted) -> Ask
    ensures { result ≡ asked w 0 (Choose a) }
{
    asking(w, 0, What::Choose(a))
}

// The report of the present slot: 20, 31, 30, 36.
pub fn report(w: Watch, t: Time) -> Ask
    ensures { result ≡ asked w 0 (Report t) }
{
    asking(w, 0, What::Report(t))
}

// What is held, by whom: the records' tallies together: 20.
pub fn sum(w: Watch) -> Ask
    ensures { result ≡ asked w 0 Sum }
{
    asking(w, 0, What::Sum)
}

// Whatever is asked, on a register, a book and the bytes that are heard. Where slots pass, the lengths are asked first: 20.
pub fn call(reg: &mut [Station], book: &mut [u16], bytes: &[u8], x: Ask) -> Reply
    ensures { Ends (out_of (called (state_of reg.old book.old x.watch) x.passes bytes.now x.what)) result reg.new book.new }
{
    let case = told(reg.len(), book.len(), bytes, x);
    carry(reg, book, case)
}
