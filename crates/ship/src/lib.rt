// Our own ship and another station: what is kept of each, what a source and a position can be, and the call that sets our own. Promises: `own` gives the
// answer that specs/Ship.antt defines. specs/Promises.antt has "given exactly when" for each number, and that no second answer meets the contract.
#![tactic(auto)]

ghost use Rattle.std.specs.Prelude.{◌≡◌};
ghost use Rattle.ship.specs.Ship.{known_place, unknown_ship, blank, fair_source, own_place, own_answer};

use numbers::Refusal;

// The position that says that it is unknown: 91 degrees north, 181 degrees east, in 1/10000 minute.
const UNKNOWN_LATITUDE: i32 = 54600000;

const UNKNOWN_LONGITUDE: i32 = 108600000;

// Latitude and longitude are two numbers and no Position: a record is laid out for C with both in it, and `own`, `known` and `distance` are public and take the two.
#[derive(Clone, Copy)]
pub struct Ship {
    pub source: u32,
    pub latitude: i32,
    pub longitude: i32,
}

// A record of the register: another station, how many slot times it holds, and for how many slots it is held off.
#[repr(C)]
#[derive(Clone, Copy)]
pub struct Station {
    pub source: u32,
    pub base: bool,
    pub latitude: i32,
    pub longitude: i32,
    pub tally: u16,
    pub hold: u16,
}

// Source and position of a new ship: both unknown.
pub fn unknown() -> Ship
    ensures { result ≡ unknown_ship }
{
    Ship {
        source: 0,
        latitude: UNKNOWN_LATITUDE,
        longitude: UNKNOWN_LONGITUDE,
    }
}

// A record of a new register: all zeros, as C lays it out too.
pub fn blank() -> Station
    ensures { result ≡ blank }
{
    Station {
        source: 0,
        base: false,
        latitude: 0,
        longitude: 0,
        tally: 0,
        hold: 0,
    }
}

// Whether a station can have this source.
#[tactic(auto, unfolding(crate::specs::Ship::fair_source))]
pub fn fair(source: u32) -> bool
    ensures { result ≡ fair_source source }
{
    (1..=999999999).contains(&source)
}

// Whether a position is known.
#[tactic(auto, unfolding(crate::specs::Ship::known_place))]
pub fn known(latitude: i32, longitude: i32) -> bool
    ensures { result ≡ known_place latitude longitude }
{
    latitude.unsigned_abs() <= 54000000 && longitude.unsigned_abs() <= 108000000
}

// Whether a position can be our own: a known one, or the one that says unknown.
#[tactic(auto, using(crate::proofs::Places::says_unknown, crate::proofs::Places::says_known))]
fn stated(latitude: i32, longitude: i32) -> bool
    ensures { result ≡ own_place latitude longitude }
{
    latitude == UNKNOWN_LATITUDE && longitude == UNKNOWN_LONGITUDE || known(latitude, longitude)
}

// Own source and position: 21, 30. Any source may be taken, also one that has a record.
#[tactic(auto, unfolding(crate::specs::Ship::own_answer, crate::specs::Ship::own_tests))]
pub fn own(source: u32, latitude: i32, longitude: i32) -> Result<Ship, Refusal>
    ensures { result ≡ own_answer source latitude longitude }
{
    if !fair(source) {
        return Err(Refusal::BadSource);
    }
    if !stated(latitude, longitude) {
        return Err(Refusal::OutOfRange);
    }
    Ok(Ship {
        source,
        latitude,
        longitude,
    })
}
