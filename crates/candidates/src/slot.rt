// A slot with its later frames: what the book alone tells of it, the holders that are to be looked up, and what is asked of each of these. Promise: as
// specs/Scanning.antt says.
ghost use Rattle.std.specs.Prelude.{◌≡◌, ◌+◌, ◌*◌, ◌%◌, ◌≤◌, ◌<◌, length};
ghost use Rattle.limits.specs.Limits.{frame_slots, slot_times, widest, most_time_out};
ghost use Rattle.candidates.specs.Slot.{earlier};
ghost use Rattle.candidates.specs.Scanning.{worth_by, slot_of, free_at, free_in, free_upto_four, level_by, held_in, holder_in};

use crate::Window;
use book::{NONE, OWN, place};
use distance::{BASE, HELD_OFF, TOP, level};
use limits::{FRAME, SLOT_TIMES};
use ship::{Ship, Station};

// A slot: its place in the book, how many of its times are to be looked at, up to which level it is none of the best, whether the slot a frame earlier
// is own; and our ship. A flag and no Option around the rest: `slot_of` and `worth_by` (specs/Scanning.antt) are said with it.
#[derive(Clone, Copy)]
pub struct Slot {
    pub from: usize,
    pub times: usize,
    pub bound: u64,
    pub earlier: bool,
    pub ship: Ship,
}

// ---- by the book alone

// The place i frames after this one, counted round the list.
fn frames_on(p: usize, i: usize) -> usize
    requires { (p < slot_times) × (i < 8) }
    ensures { result ≡ (p + frame_slots * i) % slot_times }
{
    let q = p + FRAME * i;
    if q < SLOT_TIMES {
        return q;
    }
    q - SLOT_TIMES
}

// Whether the slot a frame earlier is in the book and own.
#[tactic(auto, unfolding(crate::specs::Slot::earlier, crate::specs::Slot::is_own, crate::specs::Slot::holder_at))]
fn own_earlier(book: &[u16], present: usize, at: usize) -> bool
    requires { (length book.now ≡ slot_times) × (at < slot_times) }
    ensures { result ≡ earlier book.now present at }
{
    if at < FRAME {
        return false;
    }
    book[place(present, at - FRAME)] == OWN
}

// Whether all times of a slot are nobody's, and the slot a frame earlier is not own.
fn free_at(book: &[u16], present: usize, at: usize, m: usize) -> bool
    requires { (length book.now ≡ slot_times) × ((at < (frame_slots + widest)) × (m < most_time_out + 1)) }
    ensures { result ≡ free_at book.now present at m }
{
    if own_earlier(book, present, at) {
        return false;
    }
    // By hand: each time is a step on from the one before. See `list_candidates`.
    let mut p = place(present, at);
    for _i in 0..m + 1 {
        if book[p] != NONE {
            return false;
        }
        p = frames_on(p, 1);
    }
    true
}

// Whether the slot i of the window is free.
#[tactic(auto, unfolding(crate::specs::Scanning::free_in))]
pub fn is_free(book: &[u16], w: Window, i: usize) -> bool
    requires { (length book.now ≡ slot_times) × ((w.first ≤ frame_slots) × ((w.timeout < most_time_out + 1) × (i < widest))) }
    ensures { result ≡ free_in book.now w i }
{
    free_at(book, w.present, w.first + i, w.timeout)
}

// How many slots of the window are free. More than four make no difference, so counting stops there.
pub fn free_upto_four(book: &[u16], w: Window) -> usize
    requires { (length book.now ≡ slot_times) × ((w.first ≤ frame_slots) × ((w.timeout < most_time_out + 1) × (w.width ≤ widest))) }
    ensures { result ≡ free_upto_four book.now w }
{
    (0..w.width)
        .filter(|i| is_free(book, w, *i))
        .take(4)
        .count()
}

// The slot i of the window, where only a level above the bound matters: nothing is to be looked at where the slot a frame earlier is own.
#[tactic(auto, unfolding(crate::specs::Scanning::slot_of))]
pub fn slot_of(book: &[u16], w: Window, ship: Ship, bound: u64, i: usize) -> Slot
    requires { (length book.now ≡ slot_times) × ((w.first ≤ frame_slots) × ((w.timeout < most_time_out + 1) × (i < widest))) }
    ensures { result ≡ slot_of book.now w ship bound i }
{
    let at = w.first + i;
    let earlier = own_earlier(book, w.present, at);
    Slot {
        from: place(w.present, at),
        times: if earlier { 0 } else { w.timeout + 1 },
        bound,
        earlier,
        ship,
    }
}

// ---- by a holder's record

// The level of the holder h with the record s. One without a record counts as a base station.
#[tactic(auto, unfolding(crate::specs::Scanning::level_by, crate::specs::Slot::is_none, crate::specs::Slot::is_own, book::specs::Book::is_record))]
pub fn level_by(s: Station, h: u16, x: Slot) -> u64
    ensures { result ≡ level_by s h x }
{
    if h == NONE {
        return TOP;
    }
    if h == OWN {
        return distance::OWN;
    }
    if h < OWN {
        return level(x.ship, s);
    }
    BASE
}

// ---- a slot's holders, one by one

// The holder of the slot's time i.
#[tactic(auto, unfolding(crate::specs::Scanning::held_in))]
fn held_in(book: &[u16], x: Slot, i: usize) -> u16
    requires { (length book.now ≡ slot_times) × ((x.from < slot_times) × (i < 8)) }
    ensures { result ≡ held_in book.now x i }
{
    book[frames_on(x.from, i)]
}

// The holder of the time i, if it is to be looked at: not where the slot is low enough already, nor where the frame before has the same holder. Nobody then: that
// level is the highest, so that the lowest stays and the loop needs no case.
#[tactic(auto, unfolding(crate::specs::Scanning::holder_in, crate::specs::Scanning::stays))]
pub fn holder(book: &[u16], low: u64, x: Slot, i: usize) -> u16
    requires { (length book.now ≡ slot_times) × ((x.from < slot_times) × (i < 8)) }
    ensures { result ≡ holder_in book.now x low i }
{
    if low <= x.bound {
        return NONE;
    }
    let h = held_in(book, x, i);
    if i == 0 {
        return h;
    }
    if h == held_in(book, x, i - 1) {
        return NONE;
    }
    h
}

// The worth of a slot by the lowest level of its holders: 0 where it is barred, TOP where it is free, and no Option, since worths become keys, which are compared.
#[tactic(auto, unfolding(crate::specs::Scanning::worth_by))]
pub fn worth_by(earlier: bool, low: u64) -> u64
    ensures { result ≡ worth_by earlier low }
{
    if earlier {
        return 0;
    }
    if low == TOP {
        return TOP;
    }
    low.saturating_sub(HELD_OFF)
}
