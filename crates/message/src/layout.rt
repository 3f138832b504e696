// How the fields of a message lie in its bytes: four in a row, in four rows. Reading, testing and writing go by these widths; that of a field with a sign stands
// once more where its sign is taken or put.
// Promise: they are read as `rows_at` says, and tested and written as `fields_in` (specs/Sheet.antt).
ghost use Rattle.std.specs.Prelude.{◌≡◌, true, ◌≤◌, length};
ghost use Rattle.laws.specs.Lists.{over};
ghost use Rattle.limits.specs.Limits.{message_bytes};
ghost use Rattle.bits.specs.Field.{packed};
ghost use Rattle.bits.specs.Row.{laid, all_fit};
ghost use Rattle.message.specs.Sheet.{Whole, rows_at, fields_in};

use bits::reader::Reader;
use bits::row::{Four, Widths};

// The widths of all fields of a message. Not one type with `Rows`: nothing is done to widths and to numbers alike.
#[derive(Clone, Copy)]
pub struct Layout {
    pub a: Widths,
    pub b: Widths,
    pub c: Widths,
    pub d: Widths,
}

// The numbers of all fields of a message.
#[derive(Clone, Copy)]
pub struct Rows {
    pub a: Four,
    pub b: Four,
    pub c: Four,
    pub d: Four,
}

// Messages 1 to 3. The last field is the state.
pub const REPORT: Layout = Layout {
    a: Widths(6, 2, 30, 4),
    b: Widths(8, 10, 1, 28),
    c: Widths(27, 12, 9, 6),
    d: Widths(2, 3, 1, 19),
};

// Message 4. The last field is the raim flag and the state.
pub const BASE: Layout = Layout {
    a: Widths(6, 2, 30, 14),
    b: Widths(4, 5, 5, 6),
    c: Widths(6, 1, 28, 27),
    d: Widths(4, 1, 9, 20),
};

// The raim flag and the state of message 4, apart.
pub const FLAG_AND_STATE: Widths = Widths(1, 19, 0, 0);

// All of it goes into its callers, where the widths are known: reading takes four times as long else, writing half as long again.
impl Layout {
    // The rows that stand in the bytes of a message.
    #[inline(always)]
    pub fn read(self, bytes: &[u8]) -> Rows
        requires { (length bytes.now ≡ message_bytes) × Whole self }
        ensures { result ≡ rows_at self bytes.now }
    {
        let mut reader = Reader::new(bytes);
        Rows {
            a: reader.take(self.a),
            b: reader.take(self.b),
            c: reader.take(self.c),
            d: reader.take(self.d),
        }
    }

    // Has every field its width? With no way out between the rows: those that fit, which are nearly all, are tested whole anyway.
    #[inline(always)]
    pub fn fits(self, x: Rows) -> bool
        requires { Whole self }
        ensures { result ≡ all_fit (fields_in self x) }
    {
        (x.a.fits(self.a) & x.b.fits(self.b)) & (x.c.fits(self.c) & x.d.fits(self.d))
    }

    // Writes the rows into the first 21 bytes.
    #[inline(always)]
    pub fn put(self, x: Rows, out: &mut [u8])
        requires { (message_bytes ≤ length out.old) × Whole self × (all_fit (fields_in self x) ≡ true) }
        ensures { out.new ≡ over (packed message_bytes (laid (fields_in self x))) out.old }
    {
        let b = self.a.total();
        let c = b + self.b.total();
        let d = c + self.c.total();
        x.a.put(self.a, 0, out);
        x.b.put(self.b, b, out);
        x.c.put(self.c, c, out);
        x.d.put(self.d, d, out);
    }
}
