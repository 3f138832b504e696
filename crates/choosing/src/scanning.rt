// How many slots a scan looks at, by the query alone. Promise: as specs/Scanning.antt says.
ghost use Rattle.std.specs.Prelude.{◌≡◌};
ghost use Rattle.choosing.specs.Scanning.{turns_of};

use crate::Query;
use ship::known;

// None where the window is taken, where four slots are free, or where our own position is not known.
#[tactic(auto, unfolding(crate::specs::Scanning::turns_of))]
pub fn turns(q: Query) -> usize
    ensures { result ≡ turns_of q }
{
    let Some(free) = q.free else {
        return 0;
    };
    if free > 3 {
        return 0;
    }
    if !known(q.watch.ship.latitude, q.watch.ship.longitude) {
        return 0;
    }
    q.window.width
}
