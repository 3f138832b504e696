// Two's complement. Promise: the number that so many bits mean, and the bits of a number, as specs/Signs.antt says. By hand: the library's casts are for whole
// types, and a field has 8, 27 or 28 bits.
ghost use Rattle.std.specs.Prelude.{◌≡◌, ◌^◌, ◌≤◌, ◌<◌};
ghost use Rattle.message.specs.Signs.{signed_of, unsigned_of};

// The number that so many bits mean. A negative one is made from how far it lies below -1, which fits at every width.
pub fn signed(v: u32, width: u32) -> i32
    requires { (1 ≤ width) × (width < 32) × (v < 2 ^ width) }
    ensures { result ≡ signed_of width v }
{
    let half = 1u32 << (width - 1);
    if v < half {
        return v as i32;
    }
    let below = (1u32 << width) - 1 - v;
    -1 - (below as i32)
}

// The bits of a number, so many; where it has none, a number that is too wide, which the one test of all widths finds.
pub fn unsigned(x: i32, width: u32) -> u32
    requires { (1 ≤ width) × (width < 32) }
    ensures { result ≡ unsigned_of width x }
{
    let half = 1u32 << (width - 1);
    let full = 1u32 << width;
    if x < 0 {
        let below = (-1 - x) as u32;
        if below < half {
            return full - 1 - below;
        }
        return full;
    }
    let n = x as u32;
    if n < half {
        return n;
    }
    full
}
