// The times of rows, one after the other, without a pass over all slot times. Promise: each answer is the next time of what it asks (specs/Next.antt).
ghost use Rattle.std.specs.Prelude.{◌≡◌, true, ◌+◌, ◌-◌, ◌*◌, ◌/◌, ◌≤◌, ◌<◌, leb};
ghost use Rattle.limits.specs.Limits.{slot_times};
ghost use Rattle.announcing.specs.Rows.{has_time, end_of, in_book};
ghost use Rattle.announcing.specs.Next.{NextTime, sooner, Last, runs_time, kind_time};

use crate::rows::{Kind, ROWS, Row, is_empty};
use limits::FRAME;

// The sooner of two times, of which there may be none. By hand: `min` of two Options takes None for the sooner one.
fn sooner(a: Option<usize>, b: Option<usize>) -> Option<usize>
    ensures { result ≡ sooner a b }
{
    let Some(x) = a else {
        return b;
    };
    let Some(y) = b else {
        return a;
    };
    Some(x.min(y))
}

// Whole steps in a distance. Most rows step by frames, and dividing by a constant takes a fraction of the time.
fn steps(past: usize, step: usize) -> usize
    requires { 0 < step }
    ensures { result ≡ past / step }
{
    if step == FRAME {
        return past / FRAME;
    }
    past / step
}

// Of `times` runs, each a step farther, the last that begins at most `past` behind the first.
fn last_run(past: usize, step: usize, times: usize) -> usize
    requires { 0 < times }
    ensures { Last past step times result }
{
    if step == 0 {
        return times - 1;
    }
    steps(past, step).min(times - 1)
}

// Among the runs of a row in one frame, the first of them `a` ahead. If that run is over, the next one begins the soonest.
fn next_run(r: Row, a: usize, d: usize) -> Option<usize>
    requires { (0 < r.slots) × (0 < r.times) × (a + r.step * (r.times - 1) + r.slots ≤ slot_times) × (d ≤ slot_times) }
    ensures { NextTime (runs_time r a) d result }
{
    if d <= a {
        return Some(a);
    }
    let past = d - a;
    let step = r.step as usize;
    let times = r.times as usize;
    let i = last_run(past, step, times);
    if past - step * i < r.slots as usize {
        return Some(d);
    }
    if i + 1 < times {
        return Some(a + step * (i + 1));
    }
    None
}

#[tactic(auto, unfolding(crate::specs::Rows::end_of))]
fn next_in(r: Row, d: usize) -> Option<usize>
    requires { (leb (end_of r) slot_times ≡ true) × (d ≤ slot_times) }
    ensures { NextTime (has_time r) d result }
{
    if is_empty(r) {
        return None;
    }
    let mut t = None;
    for f in 0..usize::from(r.frames) {
        t = sooner(t, next_run(r, r.from + FRAME * f, d));
    }
    t
}

// The next time from d on that some row of the kind has.
pub fn next_time(rows: [Row; ROWS], d: usize, kind: Kind) -> Option<usize>
    requires { (in_book rows ≡ true) × (d ≤ slot_times) }
    ensures { NextTime (kind_time kind rows) d result }
{
    let mut t = None;
    for r in rows {
        if r.kind == kind {
            t = sooner(t, next_in(r, d));
        }
    }
    t
}
