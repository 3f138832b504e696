// Four fields in a row. Promise: they are tested, joined, taken apart and written as specs/Row.antt says.
ghost use Rattle.std.specs.Prelude.{◌≡◌, true, ◌+◌, ◌*◌, ◌%◌, ◌^◌, ◌≤◌, ◌<◌, length};
ghost use Rattle.bits.specs.Row.{all_fit, split_of, joined_four, one_of, lay_over, four_row};

use crate::field::put_field;

// The numbers of four fields in a row.
#[derive(Clone, Copy)]
pub struct Four {
    pub a: u32,
    pub b: u32,
    pub c: u32,
    pub d: u32,
}

// The widths of four fields in a row, in bits. A field of width 0 has no bits.
#[derive(Clone, Copy)]
pub struct Widths(pub usize, pub usize, pub usize, pub usize);

impl Widths {
    pub fn total(self) -> usize
        requires { self.0 + self.1 + self.2 + self.3 < 2 ^ 64 }
        ensures { result ≡ self.0 + self.1 + self.2 + self.3 }
    {
        self.0 + self.1 + self.2 + self.3
    }

    // A number taken apart into four, the last one its lowest bits.
    pub fn split(self, all: u32) -> Four
        requires { self.1 + self.2 + self.3 < 32 }
        ensures { result ≡ split_of all self.1 self.2 self.3 }
    {
        Four {
            a: all >> (self.1 + self.2 + self.3),
            b: (all >> (self.2 + self.3)) % (1 << self.1),
            c: (all >> self.3) % (1 << self.2),
            d: all % (1 << self.3),
        }
    }
}

impl Four {
    // Has each number its width? By one sum, with no way out between the four.
    pub fn fits(self, w: Widths) -> bool
        requires { (w.0 ≤ 32) × (w.1 ≤ 32) × (w.2 ≤ 32) × (w.3 ≤ 32) }
        ensures { result ≡ all_fit (four_row self w.0 w.1 w.2 w.3) }
    {
        let first = ((self.a as u64) >> w.0) + ((self.b as u64) >> w.1);
        let last = ((self.c as u64) >> w.2) + ((self.d as u64) >> w.3);
        first + last == 0
    }

    // All four as one number, the first one its highest bits.
    fn joined(self, w: Widths) -> u64
        requires { (w.0 + w.1 + w.2 + w.3 < 64) × (all_fit (four_row self w.0 w.1 w.2 w.3) ≡ true) }
        ensures { result ≡ joined_four self w.1 w.2 w.3 }
    {
        let two = ((self.a as u64) << w.1) + self.b as u64;
        let three = (two << w.2) + self.c as u64;
        (three << w.3) + self.d as u64
    }

    // The same of fewer than 32 bits, as a field of so many. Where a number is too wide, so is what comes out, so that the one test of the row finds it.
    pub fn one(self, w: Widths) -> u32
        requires { w.0 + w.1 + w.2 + w.3 < 32 }
        ensures { result ≡ one_of self w.0 w.1 w.2 w.3 }
    {
        if !self.fits(w) {
            return 1 << w.total();
        }
        self.joined(w) as u32
    }

    // Writes all four from bit at on, as one number.
    pub fn put(self, w: Widths, at: usize, out: &mut [u8])
        requires { (8 ≤ length out.old) × (1 ≤ w.0) × (w.0 + w.1 + w.2 + w.3 < 64) × (at % 8 + (w.0 + w.1 + w.2 + w.3) ≤ 64) × (at + (w.0 + w.1 + w.2 + w.3) ≤ 8 * length out.old) × (all_fit (four_row self w.0 w.1 w.2 w.3) ≡ true) }
        ensures { out.new ≡ lay_over out.old at (four_row self w.0 w.1 w.2 w.3) }
    {
        put_field(out, at, w.total(), self.joined(w));
    }
}
