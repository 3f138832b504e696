// Marks on bits that go one after the other, the lowest first. Promise: five ones in a row and the lowest mark are found as
// specs/Marks.antt says.
ghost use Rattle.std.specs.Prelude.{◌≡◌};
ghost use Rattle.stuffing.specs.Marks.{fives_of, up_to_lowest};

// Bits, the marks on them, and how many marks are done with.
#[derive(Clone, Copy)]
pub struct Marked {
    pub bits: u64,
    pub marks: u64,
    pub done: u64,
}

// Bit j is 1 where bits j to j+4 are ones.
pub fn fives(w: u64) -> u64
    ensures { result ≡ fives_of w }
{
    let two = w & (w / 2);
    two & (two / 4) & (w / 16)
}

// The bits up to the lowest one; all where there is none.
pub fn up_to_lowest(m: u64) -> u64
    ensures { result ≡ up_to_lowest m }
{
    m ^ m.wrapping_sub(1)
}
