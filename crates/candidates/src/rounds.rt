// The candidates without ranks: the four best keys of available slots tell which of them are needed beside the free ones, since a key ends in its slot's place.
// Promise: as specs/Rounds.antt and specs/Scanning.antt say; that these are the candidates by rank is proved in proofs/Ranking.antt, proofs/Four.antt and
// proofs/Cutting.antt.
ghost use Rattle.std.specs.Prelude.{◌≡◌, ◌+◌, ◌≤◌, ◌<◌, length};
ghost use Rattle.limits.specs.Limits.{frame_slots, slot_times, widest, most_time_out};
ghost use Rattle.candidates.specs.Rounds.{key_of, better_of};
ghost use Rattle.candidates.specs.Scanning.{none_yet, bound_of, key_hits, reused_by, candidate_by};

use crate::Window;
use crate::slot::is_free;
use distance::{HELD_OFF, TOP};

// The four greatest keys, 0 where there are fewer: 0 is below every key, so that `max` and `min` need no case for one that is not there. Four fields and no list,
// since `better_of` says of each by itself what comes in.
#[derive(Clone, Copy)]
pub struct Best {
    pub first: u64,
    pub second: u64,
    pub third: u64,
    pub fourth: u64,
}

// No slot yet.
#[tactic(auto, unfolding(crate::specs::Scanning::none_yet))]
pub fn none_yet() -> Best
    ensures { result ≡ none_yet }
{
    Best {
        first: 0,
        second: 0,
        third: 0,
        fourth: 0,
    }
}

// The key of the slot i with the worth w: greater for a farther slot, and for an earlier one as far.
#[tactic(auto, unfolding(crate::specs::Rounds::key_of, crate::specs::Window::is_available))]
fn key(w: u64, i: usize) -> u64
    requires { i < 512 }
    ensures { result ≡ key_of w i }
{
    if w == 0 {
        return 0;
    }
    if w < TOP {
        return w * 512 + (511 - i as u64);
    }
    0
}

// Up to this level a slot is none of the best: it is barred, or nearer than the fourth.
#[tactic(auto, unfolding(crate::specs::Scanning::bound_of))]
pub fn bound(b: Best) -> u64
    ensures { result ≡ bound_of b }
{
    let w = b.fourth / 512;
    HELD_OFF + w.saturating_sub(1)
}

// With the slot i of the worth w: each key is the greater of what it was and what the new one pushes down.
#[tactic(auto, unfolding(crate::specs::Rounds::better_of))]
pub fn better(b: Best, w: u64, i: usize) -> Best
    requires { i < widest }
    ensures { result ≡ better_of b w i }
{
    let k = key(w, i);
    if k == 0 {
        return b;
    }
    Best {
        first: b.first.max(k),
        second: b.second.max(b.first.min(k)),
        third: b.third.max(b.second.min(k)),
        fourth: b.fourth.max(b.third.min(k)),
    }
}

// Whether the slot i is that of the key k.
#[tactic(auto, unfolding(crate::specs::Scanning::key_hits))]
fn hits(k: u64, i: usize) -> bool
    ensures { result ≡ key_hits k i }
{
    k > 0 && (511 - k % 512) as usize == i
}

// Whether the slot i is one of the best, as many as are needed beside the free ones.
#[tactic(auto, unfolding(crate::specs::Scanning::reused_by))]
fn reused(free: usize, b: Best, i: usize) -> bool
    ensures { result ≡ reused_by free b i }
{
    (free < 4 && hits(b.first, i))
        || (free < 3 && hits(b.second, i))
        || (free < 2 && hits(b.third, i))
        || (free < 1 && hits(b.fourth, i))
}

// Whether the slot i of the window is a candidate.
#[tactic(auto, unfolding(crate::specs::Scanning::candidate_by))]
pub fn is_candidate(book: &[u16], w: Window, free: usize, b: Best, i: usize) -> bool
    requires { (length book.now ≡ slot_times) × ((w.first ≤ frame_slots) × ((w.timeout < most_time_out + 1) × (i < widest))) }
    ensures { result ≡ candidate_by book.now w free b i }
{
    reused(free, b, i) || is_free(book, w, i)
}
