// Stuffing, up to four bytes at a time. Promise: what is sent is `stuffed` of the bits, as specs/Stuff.antt defines it bit by bit.
ghost use Rattle.std.specs.Prelude.{◌≡◌, ◌+◌, ◌*◌, ◌^◌, ◌<◌, ◌≤◌, length};
ghost use Rattle.std.proofs.lemmas.List.Edits.{sets};
ghost use Rattle.bits.specs.Bits.{low_first};
ghost use Rattle.stuffing.specs.Filling.{zero_put, Stuffs};

use crate::marks::{Marked, fives, up_to_lowest};
use bits::turn::turn;
use bits::{spread, store_eight};

// Where sending stands: the next place, and the last four bits sent. What is sent into comes beside it: held in it, every contract would have
// to say that it is still the same bytes.
#[derive(Clone, Copy)]
pub struct Sending {
    pub at: usize,
    pub tail: u64,
    pub ghost four: { tail < 16 },
}

// A 0 after the lowest bit that is marked; the next four marks go with the five ones before it. As they are where none is marked.
fn put_zero(s: Marked) -> Marked
    requires { (s.bits < 2 ^ 39) × (s.marks < 2 ^ 39) × (s.done ≤ 39) }
    ensures { result ≡ zero_put s }
{
    let low = up_to_lowest(s.marks);
    Marked {
        bits: s.bits + (s.bits - (s.bits & low)),
        marks: (s.marks - (s.marks & ((low << 4) + 15))) * 2,
        done: s.done + (1 - low / 0x8000000000000000),
    }
}

// Up to 32 bits with the zeros put in. One is put in without a test: mostly there is none or one, and either goes the same way.
fn stuff_word(tail: u64, v: u64) -> Marked
    requires { (tail < 16) × (v < 2 ^ 32) }
    ensures stuffs { Stuffs tail v result }
    ensures few { result.done ≤ 7 }
{
    let mut s = put_zero(Marked {
        bits: v,
        marks: fives(v * 16 + tail),
        done: 0,
    });
    while s.marks != 0 {
        s = put_zero(s);
    }
    s
}

// The low bytes of a number, so many, each turned and from its high bit: its bits, the lowest first.
fn put(count: usize, bits: u64, out: &mut [u8], at: usize)
    requires { (count ≤ 8) × (at + 8 * count ≤ length out.old) }
    ensures { out.new ≡ sets out.old at (low_first (8 * count) bits) }
{
    for i in 0..count {
        // by hand: so many bytes of it are sent, each where it is turned
        let byte = (bits >> (8 * i)) % 256;
        store_eight(out, at + 8 * i, spread(turn(byte as u8)));
    }
}

impl Sending {
    ghost use Rattle.stuffing.specs.Sending.{Leads};

    // So many bytes of a number, the lowest bit first. It always stores one byte more; whatever comes next, a flag at the least, covers
    // those bits too many.
    pub fn send<const BYTES: usize>(self, v: u64, out: &mut [u8]) -> Sending
        requires { (1 ≤ BYTES) × (BYTES ≤ 4) × (v < 2 ^ (8 * BYTES)) × (self.at + (8 * BYTES + 8) ≤ length out.old) }
        ensures { Leads (low_first (8 * BYTES) v) self out.old result out.new }
    {
        let x = stuff_word(self.tail, v);
        put(BYTES + 1, x.bits, out, self.at);
        Sending {
            at: self.at + 8 * BYTES + x.done as usize,
            tail: x.bits >> ((8 * BYTES - 4) as u64 + x.done),
        }
    }
}
