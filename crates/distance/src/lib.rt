// How far a station is from us, and its level for the choice: why its slots may not be reused, or how far it is. Promises: as specs/Distance.antt says, on
// signed positions; specs/Promises.antt has that the level of every station is below that of a time that nobody holds.
#![tactic(auto)]

ghost use Rattle.std.specs.Prelude.{◌≡◌, ◌<◌, ◌^◌};
ghost use Rattle.distance.specs.Distance.{round, distance, level_of};

use ship::{Ship, Station, known};

// The level of a holder of a slot time, for the choice: the lower, the less its slots may be used. Of a station's it is why they may not, or from FAR on how
// far it is; our own time is OWN, where our own position is not known it is WE_UNKNOWN, and nobody's is TOP, above the level of every distance. Numbers and
// no enum: the choice orders candidates by one number that holds the level beside the slot, so that one test compares two of them.
pub const OWN: u64 = 0;

pub const WE_UNKNOWN: u64 = 1;

pub const BASE: u64 = 2;

pub const UNKNOWN: u64 = 3;

pub const HELD_OFF: u64 = 4;

pub const FAR: u64 = 5;

pub const TOP: u64 = 36028797018963968;

// The short way round the earth.
#[tactic(auto, unfolding(crate::specs::Distance::round))]
fn short_way(d: u32) -> u32
    ensures { result ≡ round d }
{
    d.min(216000000u32.saturating_sub(d))
}

// The distance of two positions.
#[tactic(auto, unfolding(crate::specs::Distance::distance, crate::specs::Distance::apart))]
pub fn distance(latitude: i32, longitude: i32, north: i32, east: i32) -> u64
    ensures value { result ≡ distance latitude longitude north east }
    ensures small { result < 2 ^ 33 }
{
    u64::from(latitude.abs_diff(north)) + u64::from(short_way(longitude.abs_diff(east)))
}

// The level of a station, our own position being known.
#[tactic(auto, unfolding(crate::specs::Distance::level_of, crate::specs::Distance::gap_to))]
pub fn level(ship: Ship, s: Station) -> u64
    ensures { result ≡ level_of ship s }
{
    if s.base {
        return BASE;
    }
    if !known(s.latitude, s.longitude) {
        return UNKNOWN;
    }
    if s.hold > 0 {
        return HELD_OFF;
    }
    FAR + distance(ship.latitude, ship.longitude, s.latitude, s.longitude)
}
