// What a call comes to, as far as the lengths, the bytes and the watch tell: refused, or to be done. Promise: as specs/Told.antt says.
ghost use Rattle.std.specs.Prelude.{◌≡◌, Ok};
ghost use Rattle.choosing.specs.Choosing.{ask_fits};
ghost use Rattle.calls.specs.Told.{fitting, fit_task, heard_task, telling_task, plan_task, own_task, by_plan, task_of, told_of};

use crate::{Ask, What};
use book::Watch;
use choosing::Wanted;
use hearing::{Telling, fair, tell};
use limits::{RECORDS, SLOT_TIMES};
use message::read;
use numbers::Refusal;
use plan::Plan;
use reporting::Time;
use ship::Ship;

// The shortest and the longest time-out, as time-outs are.
const LEAST_TIME_OUT: u16 = limits::LEAST_TIME_OUT as u16;

const MOST_TIME_OUT: u16 = limits::MOST_TIME_OUT as u16;

// What is left to be done. No `What` with a type parameter: only what is heard differs, lent there and read here.
#[derive(Clone, Copy)]
pub enum Task {
    Nothing,
    Hear(Telling),
    Plan(Plan),
    Own(Ship),
    Choose(Wanted),
    Report(Time),
    New,
    Sum,
}

// How many slots pass first, and what is left to be done then, or why nothing is. It is no `Ask`: what is left may be a refusal. Whether the lengths fit goes along
// with the functions below, since each call asks for it at its own place in the order.
#[derive(Clone, Copy)]
pub struct Case {
    pub watch: Watch,
    pub passes: u16,
    pub task: Result<Task, Refusal>,
}

#[tactic(auto, unfolding(crate::specs::Told::fitting))]
fn fitting(n: usize, m: usize) -> bool
    ensures { result ≡ fitting n m }
{
    m == SLOT_TIMES && n == RECORDS
}

// What asks for the lengths alone: 20.
#[tactic(auto, unfolding(crate::specs::Told::fit_task))]
fn fit_task(task: Task, fits: bool) -> Result<Task, Refusal>
    ensures { result ≡ fit_task fits (Ok task) }
{
    if !fits {
        return Err(Refusal::OtherLength);
    }
    Ok(task)
}

// 20, 21, 22.
#[tactic(auto, unfolding(crate::specs::Told::telling_task))]
fn telling_task(x: Telling, own: u32, fits: bool) -> Result<Task, Refusal>
    ensures { result ≡ telling_task fits own x }
{
    if !fits {
        return Err(Refusal::OtherLength);
    }
    if !fair(x.source, own) {
        return Err(Refusal::BadSource);
    }
    if x.repeat != 0 {
        return Err(Refusal::Repeated);
    }
    Ok(Task::Hear(x))
}

// 17, 18 before all others.
#[tactic(auto, unfolding(crate::specs::Told::heard_task))]
fn heard_task(bytes: &[u8], own: u32, fits: bool) -> Result<Task, Refusal>
    ensures { result ≡ heard_task fits own bytes.now }
{
    let message = read(bytes)?;
    telling_task(tell(message), own, fits)
}

// 20, 30.
#[tactic(auto, unfolding(crate::specs::Told::plan_task))]
fn plan_task(p: Plan, fits: bool) -> Result<Task, Refusal>
    ensures { result ≡ plan_task fits p }
{
    if !fits {
        return Err(Refusal::OtherLength);
    }
    if !p.good() {
        return Err(Refusal::OutOfRange);
    }
    Ok(Task::Plan(p))
}

// 21, 30, whatever the lengths.
#[tactic(auto, unfolding(crate::specs::Told::own_task))]
fn own_task(s: Ship) -> Result<Task, Refusal>
    ensures { result ≡ own_task s }
{
    let ours = ship::own(s.source, s.latitude, s.longitude)?;
    Ok(Task::Own(ours))
}

// The plan has the window that is asked for, and the time-out is one.
#[tactic(auto, unfolding(choosing::specs::Choosing::ask_fits))]
fn can_ask(p: Plan, a: Wanted) -> bool
    ensures { result ≡ ask_fits p a }
{
    a.k < p.rate && (LEAST_TIME_OUT..=MOST_TIME_OUT).contains(&a.timeout)
}

// What goes by the plan: 20, 31, 30.
fn by_plan(p: Plan, good: bool, task: Task, fits: bool) -> Result<Task, Refusal>
    ensures { result ≡ by_plan fits p good (Ok task) }
{
    if !fits {
        return Err(Refusal::OtherLength);
    }
    if !p.good() {
        return Err(Refusal::NoPlan);
    }
    if !good {
        return Err(Refusal::OutOfRange);
    }
    Ok(task)
}

#[tactic(auto, unfolding(crate::specs::Told::choose_task, crate::specs::Told::report_task))]
fn task_of(bytes: &[u8], watch: Watch, what: What, fits: bool) -> Result<Task, Refusal>
    ensures { result ≡ task_of fits watch bytes.now what }
{
    let plan = watch.channel.plan;
    match what {
        What::Nothing => fit_task(Task::Nothing, fits),
        What::Hear => heard_task(bytes, watch.ship.source, fits),
        What::Plan(p) => plan_task(p, fits),
        What::Own(s) => own_task(s),
        What::Choose(a) => by_plan(plan, can_ask(plan, a), Task::Choose(a), fits),
        What::Report(t) => by_plan(plan, reporting::fits(t), Task::Report(t), fits),
        What::New => fit_task(Task::New, fits),
        What::Sum => fit_task(Task::Sum, fits),
    }
}

// The case, with a register of n records and a book of m places. Where slots pass, the lengths are asked first.
#[tactic(auto, unfolding(crate::specs::Told::told_of))]
pub fn told(n: usize, m: usize, bytes: &[u8], x: Ask) -> Case
    ensures { result ≡ told_of n m bytes.now x }
{
    let watch = x.watch;
    let fits = fitting(n, m);
    if x.passes > 0 && !fits {
        return Case {
            watch,
            passes: 0,
            task: Err(Refusal::OtherLength),
        };
    }
    Case {
        watch,
        passes: x.passes,
        task: task_of(bytes, watch, x.what, fits),
    }
}
