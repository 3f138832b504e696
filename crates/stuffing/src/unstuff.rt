// Unstuffing, from bits to bytes, 32 bits at a time. Promise: the bytes are those of `unstuffed` of the bits, and whether they are
// `legal` is told, as specs/Stuff.antt defines both bit by bit.
ghost use Rattle.std.specs.Prelude.{◌≡◌, ◌+◌, ◌^◌, ◌<◌, ◌≤◌, length, bit_and};
ghost use Rattle.bits.specs.Bits.{low_first};
ghost use Rattle.stuffing.specs.Taking.{put_in, left_out, Leaves, Sound, Took};

use crate::marks::{Marked, fives, up_to_lowest};
use bits::store_eight;

// Where taking bits stands: the last five, whether one that was put in was 1, the four bytes begun and how many bits they have, and how
// many bytes are whole. A flag and no Option, since taking a word does not fail: it goes on the same, and who asks at the end is told.
#[derive(Clone, Copy)]
pub struct Taking {
    pub tail: u64,
    pub spoilt: bool,
    pub part: u64,
    pub have: u64,
    pub count: usize,
}

// 32 bits go in 64, here and in stuff.rt: the steps on them go above them. Which of 32 bits were put in: those with five ones before them.
fn put_in(tail: u64, v: u64) -> u64
    requires { (tail < 32) × (v < 2 ^ 32) }
    ensures { result ≡ put_in tail v }
{
    fives(v * 32 + tail) % 0x100000000
}

// The bits without the lowest one that is marked; as they are where none is. The other way than `put_zero`: only the lowest mark is found alike.
fn leave_out(s: Marked) -> Marked
    requires { (s.bits < 2 ^ 32) × (s.marks < 2 ^ 32) × (s.done ≤ 32) }
    ensures { result ≡ left_out s }
{
    let low = up_to_lowest(s.marks);
    Marked {
        bits: (s.bits + (s.bits & low)) / 2,
        marks: (s.marks - (s.marks & low)) / 2,
        done: s.done + (1 - low / 0x8000000000000000),
    }
}

// 32 bits without those that are marked. One is left out without a test: mostly there is none or one, and either goes the same way. The loop
// is that of `stuff_word` with another step: one for both would have to ask of the step why it comes to an end.
fn unstuff_word(v: u64, m: u64) -> Marked
    requires { (v < 2 ^ 32) × (m < 2 ^ 32) × (bit_and v m ≡ 0) }
    ensures { Leaves v m result }
{
    let mut s = leave_out(Marked {
        bits: v,
        marks: m,
        done: 0,
    });
    while s.marks != 0 {
        s = leave_out(s);
    }
    s
}

// 32 bits of the body, the lowest first. It always stores eight bytes; whatever comes next covers those too many.
pub fn take_word(v: u64, raw: &mut [u8], s: Taking) -> Taking
    requires { (v < 2 ^ 32) × Sound s raw.old × (s.count + 8 ≤ length raw.old) }
    ensures { Took (low_first 32 v) s raw.old result raw.new }
{
    let m = put_in(s.tail, v);
    let on = Taking {
        tail: v / 0x8000000,
        ..s
    };
    if v & m != 0 {
        return Taking { spoilt: true, ..on };
    }
    let x = unstuff_word(v, m);
    let part = s.part + (x.bits << s.have);
    if s.have < x.done {
        return Taking {
            part,
            have: s.have + 32 - x.done,
            ..on
        };
    }
    store_eight(raw, s.count, part);
    Taking {
        part: part / 0x100000000,
        have: s.have - x.done,
        count: s.count + 4,
        ..on
    }
}
