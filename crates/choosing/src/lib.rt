// The choosing of an own slot: the window meant, whether it has an own mark, its candidates, and the draw. Promises: `ask`, `scan` and `judge`, one after the other,
// find the slot that the document's choice picks in the window meant (specs/Promises.antt, `FindsTheChoice`), for every book and register. `ask` and `judge` see the
// book alone; `scan` looks the holders of its slots up in the lent register, and only where the book alone does not tell. specs/ChoosePromises.antt has the draw and the
// rule of four, of the whole call.
#![tactic(auto)]

pub mod own;
pub mod scanning;
pub mod window;

ghost use Rattle.std.specs.Prelude.{◌≡◌, ◌+◌, ◌≤◌, ◌<◌, IsSome, length};
ghost use Rattle.limits.specs.Limits.{frame_slots, slot_times, records, widest, most_time_out};
ghost use Rattle.plan.specs.Plan.{InRange};
ghost use Rattle.choosing.specs.Scanning.{free_unless_own, asked, turns_of, scanned, judged};

use book::Watch;
use candidates::rounds::{Best, better, bound, none_yet};
use candidates::slot::{free_upto_four, slot_of, worth_by};
use candidates::{Picked, Window, draw, slot_level};
use numbers::Refusal;
use scanning::turns;
use ship::Station;
use window::{any_own, meant};

// What is asked: the window of k, the time-out, and the number drawn.
#[derive(Clone, Copy)]
pub struct Wanted {
    pub k: u16,
    pub timeout: u16,
    pub draw: u16,
}

// A choice as the book alone has it: the window meant, and how many of its slots are free, as far as four; none where it is taken by an own mark.
#[derive(Clone, Copy)]
pub struct Query {
    pub watch: Watch,
    pub window: Window,
    pub draw: usize,
    pub free: Option<usize>,
}

// How many slots of the window are free, as far as four; none where it has an own mark.
#[tactic(auto, unfolding(crate::specs::Scanning::free_unless_own))]
fn free_unless_own(book: &[u16], v: Window) -> Option<usize>
    requires { (length book.now ≡ slot_times) × ((v.first ≤ frame_slots) × ((v.timeout < most_time_out + 1) × (v.width ≤ widest))) }
    ensures { result ≡ free_unless_own book.now v }
{
    if any_own(book, v) {
        return None;
    }
    Some(free_upto_four(book, v))
}

// The query of a choice.
pub fn ask(book: &[u16], watch: Watch, a: Wanted) -> Query
    requires { (length book.now ≡ slot_times) × (InRange watch.channel.plan × ((a.k < watch.channel.plan.rate) × (a.timeout < most_time_out + 1))) }
    ensures { result ≡ asked book.now watch a }
{
    let window = meant(watch.present, watch.channel.plan, a.k, a.timeout);
    Query {
        watch,
        window,
        draw: a.draw as usize,
        free: free_unless_own(book, window),
    }
}

// The four best keys of the window's available slots. Nothing is looked at where none of them can be needed: then register, book and window are of any kind. So they
// are slices and no arrays of their lengths, which would ask more, here and in `judge`.
pub fn scan(reg: &[Station], book: &[u16], q: Query) -> Best
    requires { 0 < turns_of q → ((length reg.now ≡ records) × ((length book.now ≡ slot_times) × ((q.window.first ≤ frame_slots) × ((q.window.timeout < most_time_out + 1) × (q.window.width ≤ widest))))) }
    ensures { result ≡ scanned reg.now book.now q }
{
    let mut best = none_yet();
    for i in 0..turns(q) {
        let x = slot_of(book, q.window, q.watch.ship, bound(best), i);
        let low = slot_level(reg, book, x);
        best = better(best, worth_by(x.earlier, low), i);
    }
    best
}

// The slot that is picked, b being the best of the window. Nothing is drawn where the window is taken.
#[tactic(auto, unfolding(crate::specs::Scanning::judged))]
pub fn judge(book: &[u16], q: Query, b: Best) -> Result<Picked, Refusal>
    requires { IsSome q.free → ((length book.now ≡ slot_times) × ((q.window.first ≤ frame_slots) × ((q.window.timeout < most_time_out + 1) × (q.window.width ≤ widest)))) }
    ensures { result ≡ judged book.now q b }
{
    match q.free {
        Some(free) => draw(book, q.window, free, b, q.draw),
        None => Err(Refusal::WindowTaken),
    }
}
