// Which slot of a window a draw picks. Promises: the candidates are those of specs/Window.antt, the document's rule of four, and the slot picked
// is the one that specs/Choice.antt says. specs/Promises.antt has that every candidate is picked by equally many draws, and when there is none.
// No distance is stored. The free slots are counted by the book alone; one pass over the window looks each holder's record up in the lent register and
// keeps the four best keys of available slots; by these and the book the candidates are listed. Register and book stay slices: see crate `register`.
#![tactic(auto)]

pub mod rounds;
pub mod slot;

ghost use Rattle.std.specs.Prelude.{◌≡◌, ◌+◌, ◌≤◌, ◌<◌, length, take};
ghost use Rattle.laws.specs.Ranges.{those};
ghost use Rattle.limits.specs.Limits.{frame_slots, slot_times, records, widest, most_time_out};
ghost use Rattle.candidates.specs.Scanning.{level_at, slot_level, candidate_by, drawn};

use book::record_of;
use distance::TOP;
use limits::WIDEST;
use numbers::Refusal;
use rounds::{Best, is_candidate};
use ship::Station;
use slot::{Slot, holder, level_by};

// A window's first slot is so far ahead of now, it has so many slots, and the choice is for this time-out.
// That these are in range is asked where a slot of it is looked at, and is no invariant: the window meant is made for every time-out, and choosing's `scan` and `judge`
// take one of any kind where nothing is to be looked at.
#[derive(Clone, Copy)]
pub struct Window {
    pub present: usize,
    pub first: usize,
    pub width: usize,
    pub timeout: usize,
}

// The slot that a draw picks: so far ahead of now, one of so many candidates.
#[derive(Clone, Copy)]
pub struct Picked {
    pub distance: usize,
    pub candidates: usize,
}

// The level of a holder, by its record.
#[tactic(auto, unfolding(crate::specs::Scanning::level_at))]
fn level_at(reg: &[Station], h: u16, x: Slot) -> u64
    requires { length reg.now ≡ records }
    ensures { result ≡ level_at reg.now h x }
{
    let k = record_of(h);
    level_by(reg[k], h, x)
}

// The lowest level of a slot's holders, nobody's where it has none. Once it is not above the slot's bound, no further holder is looked at.
pub fn slot_level(reg: &[Station], book: &[u16], x: Slot) -> u64
    requires { (length reg.now ≡ records) × ((length book.now ≡ slot_times) × ((x.from < slot_times) × (x.times < 9))) }
    ensures { result ≡ slot_level reg.now book.now x }
{
    let mut low = TOP;
    for i in 0..x.times {
        let h = holder(book, low, x, i);
        let l = level_at(reg, h, x);
        low = low.min(l);
    }
    low
}

// The candidates go to the first places of the list, as places in the window; the answer is how many. By hand, as `free_at` goes over
// a slot's times: with chains over the places that count the candidates and meet them again, and over the times, a choice in an empty book takes 1.6 times as long.
// An array with a length beside it: as an ArrayVec the list lay three times on the stack, 2,864 bytes.
fn list_candidates(out: &mut [u16], book: &[u16], w: Window, free: usize, b: Best) -> usize
    requires { (length out.old ≡ widest) × ((length book.now ≡ slot_times) × ((w.first ≤ frame_slots) × ((w.timeout < most_time_out + 1) × (w.width ≤ widest)))) }
    ensures { (result ≤ w.width) × (take result out.new ≡ those (candidate_by book.now w free b) 0 w.width) }
{
    let mut n = 0;
    for i in 0..w.width {
        out[n] = i as u16;
        n += usize::from(is_candidate(book, w, free, b, i));
    }
    n
}

// The slot that the draw d picks, where so many slots are free, as far as four, and the best are b.
pub fn draw(book: &[u16], w: Window, free: usize, b: Best, d: usize) -> Result<Picked, Refusal>
    requires { (length book.now ≡ slot_times) × ((w.first ≤ frame_slots) × ((w.timeout < most_time_out + 1) × (w.width ≤ widest))) }
    ensures { result ≡ drawn book.now w free b d }
{
    let mut cs = [0u16; WIDEST];
    let n = list_candidates(&mut cs, book, w, free, b);
    if n == 0 {
        return Err(Refusal::NoCandidate);
    }
    if d < n * (65536 / n) {
        let at = cs[d % n] as usize;
        return Ok(Picked {
            distance: w.first + at,
            candidates: n,
        });
    }
    Err(Refusal::DrawBack)
}
