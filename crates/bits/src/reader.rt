// A reader: bytes and the position of the next bit, kept together. Promise: four fields are read where the reader stands, and it stands
// right after them then.
ghost use Rattle.std.specs.Prelude.{◌≡◌, ◌+◌, ◌*◌, ◌^◌, ◌≤◌, ◌<◌, length};
ghost use Rattle.bits.specs.Row.{Readable, four_at};

use crate::field::field;
use crate::row::{Four, Widths};

#[derive(Clone, Copy)]
pub struct Reader<'a> {
    pub bytes: &'a [u8],
    pub at: usize,
}

impl<'a> Reader<'a> {
    // Before the first bit.
    pub fn new(bytes: &'a [u8]) -> Reader<'a>
        ensures { result ≡ record { bytes = bytes.entry; at = 0 } }
    {
        Reader { bytes, at: 0 }
    }

    // The next four fields, of these widths. That the position fits a usize is asked: of 2 ^ 61 bytes and more it need not.
    // It goes into its callers, where the widths are known.
    #[inline(always)]
    pub fn take(&mut self, w: Widths) -> Four
        requires { (8 ≤ length self.old.bytes.now) × Readable w × (self.old.at + w.0 + w.1 + w.2 + w.3 < 2 ^ 64) × (self.old.at + w.0 + w.1 + w.2 + w.3 ≤ 8 * length self.old.bytes.now) }
        ensures { (result ≡ four_at self.old.bytes.now self.old.at w.0 w.1 w.2 w.3) × (self.new ≡ record { bytes = self.old.bytes; at = self.old.at + w.0 + w.1 + w.2 + w.3 }) }
    {
        let second = self.at + w.0;
        let third = second + w.1;
        let fourth = third + w.2;
        let four = Four {
            a: field(self.bytes, self.at, w.0),
            b: field(self.bytes, second, w.1),
            c: field(self.bytes, third, w.2),
            d: field(self.bytes, fourth, w.3),
        };
        self.at = fourth + w.3;
        four
    }
}
