// A tally goes up or down by one. Promise: it stops at 0 and at 20,250; of the counts only that of nobody, or our own, changes, if the holder is one of these.
ghost use Rattle.std.specs.Prelude.{◌≡◌};
ghost use Rattle.book.specs.Book.{raised, lowered, counts_by, CountsBy};

use crate::{ALL, Counts, NONE, OWN};

// One more, stopping there. A number above it stays, which a plain `min` would bring down.
pub fn up(x: u16) -> u16
    ensures { result ≡ raised x }
{
    if x < ALL { x + 1 } else { x }
}

// One less, stopping at 0.
pub fn down(x: u16) -> u16
    ensures { result ≡ lowered x }
{
    x.saturating_sub(1)
}

// What is counted of the holder h, if it is nobody or we, takes this step.
#[tactic(auto, unfolding(crate::specs::Book::counts_by))]
fn counted<F: Fn(u16) -> u16>(c: Counts, h: u16, step: F) -> Counts
    requires { F.IsAlwaysCallable step }
    ensures { CountsBy (F.post step) c h result }
{
    match h {
        NONE => Counts {
            free: step(c.free),
            ..c
        },
        OWN => Counts {
            own: step(c.own),
            ..c
        },
        _ => c,
    }
}

// The old holder has one less, and then the new one has one more.
pub fn handed(c: Counts, old: u16, new: u16) -> Counts
    ensures { result ≡ counts_by raised (counts_by lowered c old) new }
{
    counted(counted(c, old, down), new, up)
}
