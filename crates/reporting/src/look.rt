// What a report looks up in the book. Promise: as specs/Report.antt says. Book and now are handed in side by side, as the two public functions' callers have
// them: the list is lent, now stands in a watch. The plan comes beside now, since nothing else of the watch is asked for.
ghost use Rattle.std.specs.Prelude.{◌≡◌, ◌+◌, ◌≤◌, ◌<◌, length};
ghost use Rattle.limits.specs.Limits.{slot_times};
ghost use Rattle.plan.specs.Plan.{InRange};
ghost use Rattle.reporting.specs.Report.{own_at, time_out, first_own, offset_of};

use book::{OWN, place};
use limits::{FRAME, MOST_TIME_OUT};
use plan::Plan;

// Whether the time d ahead is ours.
#[tactic(auto, unfolding(crate::specs::Report::own_at))]
pub(crate) fn own_at(book: &[u16], present: usize, d: usize) -> bool
    requires { (length book.now ≡ slot_times) × (d < slot_times) }
    ensures { result ≡ own_at book.now present d }
{
    book[place(present, d)] == OWN
}

// In how many frames in a row, from the next one on, the present slot is ours; at most 7.
pub fn frames_own(book: &[u16], present: usize) -> usize
    requires { length book.now ≡ slot_times }
    ensures { result ≡ time_out book.now present }
{
    (0..MOST_TIME_OUT)
        .find(|i| !own_at(book, present, FRAME * (*i + 1)))
        .unwrap_or(MOST_TIME_OUT)
}

// The distance of the first of the n times from d ahead on that is ours, or 0, which is how a report says that there is none.
fn first_own(book: &[u16], present: usize, d: usize, n: usize) -> usize
    requires { (length book.now ≡ slot_times) × (d + n ≤ slot_times) }
    ensures { result ≡ first_own book.now present d n }
{
    (d..d + n)
        .find(|at| own_at(book, present, *at))
        .unwrap_or(0)
}

// The distance to the first own mark in the next coming of the window that now lies in; 0 if there is no such mark or window.
pub fn next_own(book: &[u16], present: usize, p: Plan) -> usize
    requires { (length book.now ≡ slot_times) × InRange p }
    ensures { result ≡ offset_of book.now present p }
{
    let slot = present % FRAME;
    match p.window_of(slot as u16) {
        None => 0,
        Some(k) => {
            let since = (slot + FRAME - usize::from(p.first(k))) % FRAME;
            first_own(book, present, FRAME - since, usize::from(p.slots()))
        }
    }
}
