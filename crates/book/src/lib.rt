// The slot book: nine frames of slot times as a lent list of holders; the free count and the own tally by value, in a watch with now, the plan and our ship. A
// record's tally stands in the record, so each operation says who lost a slot time and who got it. Promises: each operation does to the book what
// specs/Book.antt says, for every book, also one that is not grown from a new one. specs/Promises.antt has demand 3: on a book whose tallies are the counts of
// its slots they stay so, and all make 20,250.
#![tactic(auto)]

pub mod tally;

ghost use Rattle.std.specs.Prelude.{◌≡◌, ◌+◌, ◌%◌, ◌≤◌, ◌<◌, length, get_or, replicate};
ghost use Rattle.limits.specs.Limits.{slot_times};
ghost use Rattle.book.specs.Book.{is_record, record_at, ours, place, put_at, mark_at, free_at, released, Puts, Gives};
ghost use Rattle.book.specs.Watch.{new_watch};

use limits::{RECORDS, SLOT_TIMES};
use plan::Plan;
use ship::Ship;
use tally::handed;

// A holder is none, one of the records by its number, from 1 on, or we ourselves: a number and not an enum, since the caller, also one in C, lends the list of
// holders and finds these numbers in it, and tallies stand in one list by them (`wide` of specs/Book.antt).
pub const NONE: u16 = 0;

pub const OWN: u16 = RECORDS as u16 + 1;

// All slot times, as a count is.
const ALL: u16 = SLOT_TIMES as u16;

// The slot times that nobody holds, and those that are ours. They go beside the book and not in one struct with it: the list is lent, and the counts come by
// value in a watch that the caller keeps.
#[derive(Clone, Copy)]
pub struct Counts {
    pub free: u16,
    pub own: u16,
}

// What belongs to one radio channel, besides its book.
#[derive(Clone, Copy)]
pub struct Channel {
    pub counts: Counts,
    pub plan: Plan,
}

// What is kept besides the book and the register: now, the channel, and our own ship.
#[derive(Clone, Copy)]
pub struct Watch {
    pub present: usize,
    pub channel: Channel,
    pub ship: Ship,
}

// What was done to a place: the counts after it, who has lost it and who has got it. Both are none where nothing was done: nobody has no record, so that
// whoever follows needs no case for it.
#[derive(Clone, Copy)]
pub struct Handing {
    pub counts: Counts,
    pub old: u16,
    pub new: u16,
}

// Whether a holder has a record.
#[tactic(auto, unfolding(crate::specs::Book::is_record))]
pub fn is_record(h: u16) -> bool
    ensures { result ≡ is_record h }
{
    NONE < h && h < OWN
}

// The place of a holder's record; the first one's for a holder without. No Option: what follows a holder without leaves that record as it is.
#[tactic(auto, unfolding(crate::specs::Book::is_record, crate::specs::Book::record_at))]
pub fn record_of(h: u16) -> usize
    ensures { result ≡ record_at h }
{
    if is_record(h) { usize::from(h - 1) } else { 0 }
}

// A new watch: now is slot 0, nothing is held, no plan, our ship unknown.
pub fn new_watch() -> Watch
    ensures { result ≡ new_watch }
{
    Watch {
        present: 0,
        channel: Channel {
            counts: Counts { free: ALL, own: 0 },
            plan: Plan::none(),
        },
        ship: ship::unknown(),
    }
}

// The place of the time d ahead, counted round the list. A now out of range is taken modulo its range.
pub fn place(present: usize, d: usize) -> usize
    requires { d < slot_times }
    ensures { result ≡ place present d }
{
    (present % SLOT_TIMES + d) % SLOT_TIMES
}

// The place after this one, counted round the list.
pub fn step_on(p: usize) -> usize
    requires { p < slot_times }
    ensures { result ≡ (p + 1) % slot_times }
{
    (p + 1) % SLOT_TIMES
}

// The place goes to the holder h, whoever holds it.
#[tactic(auto, using(crate::proofs::Following::puts))]
pub fn put(book: &mut [u16], c: Counts, at: usize, h: u16) -> Handing
    requires { at < length book.old }
    ensures { Puts (λ b. put_at b at h) book.old c result book.new × (result.old ≡ get_or book.old at 0) × (result.new ≡ h) }
{
    let old = book[at];
    book[at] = h;
    Handing {
        counts: handed(c, old, h),
        old,
        new: h,
    }
}

// Nothing is done.
fn left_alone(c: Counts) -> Handing
    ensures { result ≡ record { counts = c; old = 0; new = 0 } }
{
    Handing {
        counts: c,
        old: NONE,
        new: NONE,
    }
}

// The place is marked for the station h, unless it is our own. `free` asks something else of the holder; `put` is what the two share.
pub fn mark(book: &mut [u16], c: Counts, at: usize, h: u16) -> Handing
    requires { at < length book.old }
    ensures { Puts (λ b. mark_at b at h) book.old c result book.new × (result.new ≤ h) }
{
    if book[at] == OWN {
        return left_alone(c);
    }
    put(book, c, at, h)
}

// The place is freed if h holds it.
pub fn free(book: &mut [u16], c: Counts, at: usize, h: u16) -> Handing
    requires { at < length book.old }
    ensures { Puts (λ b. free_at b at h) book.old c result book.new × (result.new ≤ h) }
{
    if book[at] == h {
        return put(book, c, at, NONE);
    }
    left_alone(c)
}

// Everything that is ours is freed: no record has a tally of it.
pub fn release(book: &mut [u16], c: Counts) -> Counts
    ensures { Gives (λ b. released ours b (length book.old)) book.old c result book.new }
{
    let mut d = c;
    for h in book.iter_mut() {
        if *h == OWN {
            *h = NONE;
            d = handed(d, OWN, NONE);
        }
    }
    d
}

// Every place becomes nobody's.
pub fn clear(book: &mut [u16])
    ensures { book.new ≡ replicate (length book.old) 0 }
{
    book.fill(NONE);
}
