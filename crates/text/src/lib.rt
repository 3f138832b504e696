// Numbers as text at the start of a lent buffer. Promise: the digits that specs/Text.antt defines, how many bytes they take, and the rest
// of the buffer as it was.
// Each gives back how many bytes it wrote: the buffer is lent, and nothing here uses a heap.
#![tactic(auto)]

ghost use Rattle.std.specs.Prelude.{◌+◌, ◌*◌, ◌≤◌, ◌≡◌, length};
ghost use Rattle.limits.specs.Limits.{number_room};
ghost use Rattle.text.specs.Text.{decimal, signed, spaced, row, Stands};

use itoa::{Buffer, Integer};

// A space, and an integer of any type. The digits are the kit's, which needs no heap for them.
fn put_spaced<I: Integer>(n: I, out: &mut [u8]) -> usize
    requires { I.MAX_STR_LEN + 1 ≤ length out.old }
    ensures { Stands (spaced (I.text n)) out.old out.new result }
{
    let mut buffer = Buffer::new();
    let text = buffer.format(n).as_bytes();
    let end = 1 + text.len();
    out[0] = b' ';
    out[1..end].copy_from_slice(text);
    end
}

// A space, and n in decimal.
#[tactic(auto, using(crate::proofs::Digits::printed_decimal))]
pub fn put_number(n: u64, out: &mut [u8]) -> usize
    requires { number_room ≤ length out.old }
    ensures { Stands (spaced (decimal n)) out.old out.new result }
{
    put_spaced(n, out)
}

// A space, and z in decimal with its sign.
#[tactic(auto, using(crate::proofs::Digits::printed_signed))]
pub fn put_signed(z: i32, out: &mut [u8]) -> usize
    requires { (number_room + 1) ≤ length out.old }
    ensures { Stands (spaced (signed z)) out.old out.new result }
{
    put_spaced(z, out)
}

// A word, and each of the numbers behind it with a space before it.
#[tactic(auto, using(crate::proofs::Rows::start))]
pub fn put_row(word: &[u8], numbers: &[u64], out: &mut [u8]) -> usize
    requires { length word.now + number_room * length numbers.now ≤ length out.old }
    ensures { Stands (row word.now numbers.now) out.old out.new result }
{
    let mut at = word.len();
    out[..at].copy_from_slice(word);
    for n in numbers {
        at += put_number(*n, &mut out[at..]);
    }
    at
}
