// The window meant, and whether it has an own mark. Promise: as specs/Choosing.antt says.
ghost use Rattle.std.specs.Prelude.{◌≡◌, ◌≤◌, ◌<◌, length};
ghost use Rattle.limits.specs.Limits.{frame_slots, slot_times, widest};
ghost use Rattle.plan.specs.Plan.{InRange};
ghost use Rattle.choosing.specs.Choosing.{window_meant, any_own};

use book::{OWN, place};
use candidates::Window;
use limits::FRAME;
use plan::Plan;

// The slots of a frame as slot numbers are, and the last of these.
const SLOTS: u16 = FRAME as u16;

const LAST: u16 = SLOTS - 1;

// The window of k whose first slot is 1 to a frame ahead, for a choice with the time-out m.
pub fn meant(present: usize, p: Plan, k: u16, m: u16) -> Window
    requires { InRange p × (k < p.rate) }
    ensures { result ≡ window_meant present p k m }
{
    let slot = (present % FRAME) as u16;
    let first = (p.first(k) + LAST - slot) % SLOTS + 1;
    Window {
        present,
        first: first as usize,
        width: p.slots() as usize,
        timeout: m as usize,
    }
}

// Whether a slot time of the window is ours.
pub fn any_own(book: &[u16], v: Window) -> bool
    requires { (length book.now ≡ slot_times) × ((v.first ≤ frame_slots) × (v.width ≤ widest)) }
    ensures { result ≡ any_own book.now v }
{
    (0..v.width).any(|i| book[place(v.present, v.first + i)] == OWN)
}
