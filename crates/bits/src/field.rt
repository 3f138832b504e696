// A field: a number of some bits at a bit position of a list of bytes, from the high bit on. Promises: one of 1 to 32 bits is read as
// specs/Field.antt says, and writing one, of as many as eight bytes hold, leaves every other bit as it was.
ghost use Rattle.std.specs.Prelude.{◌≡◌, ◌+◌, ◌*◌, ◌%◌, ◌^◌, ◌≤◌, ◌<◌, length};
ghost use Rattle.std.proofs.lemmas.List.Edits.{sets};
ghost use Rattle.bits.specs.Field.{field_of, put_field, word_of, bytes_of_word, window_of};

use crate::chunk_at;

// The eight bytes from place s on as a number, the first one the highest.
fn word_at(bytes: &[u8], s: usize) -> u64
    requires { s + 8 ≤ length bytes.now }
    ensures { result ≡ word_of bytes.now s }
{
    u64::from_be_bytes(chunk_at(bytes, s))
}

// The other way.
fn put_word(out: &mut [u8], s: usize, z: u64)
    requires { s + 8 ≤ length out.old }
    ensures { out.new ≡ sets out.old s (bytes_of_word z) }
{
    out[s..s + 8].copy_from_slice(&z.to_be_bytes());
}

// Where the eight bytes start that hold a field: with its first byte, or, near the end, eight bytes before the end.
fn window(len: usize, at: usize) -> usize
    requires { 8 ≤ len }
    ensures { result ≡ window_of len at }
{
    (at / 8).min(len - 8)
}

// The field of so many bits from bit at on.
pub fn field(bytes: &[u8], at: usize, width: usize) -> u32
    requires { (8 ≤ length bytes.now) × (1 ≤ width) × (width ≤ 32) × (at + width ≤ 8 * length bytes.now) }
    ensures { result ≡ field_of bytes.now at width }
{
    let s = window(bytes.len(), at);
    let before = at - 8 * s;
    ((word_at(bytes, s) << before) >> (64 - width)) as u32
}

// Puts a number of so many bits from bit at on, as many as eight bytes hold.
pub fn put_field(out: &mut [u8], at: usize, width: usize, value: u64)
    requires { (8 ≤ length out.old) × (1 ≤ width) × (width < 64) × (at % 8 + width ≤ 64) × (at + width ≤ 8 * length out.old) × (value < 2 ^ width) }
    ensures { out.new ≡ put_field out.old at width value }
{
    let s = window(out.len(), at);
    let over = 64 - (at - 8 * s) - width;
    let all = word_at(out, s);
    let old = (all >> over) % (1 << width);
    put_word(out, s, all - (old << over) + (value << over));
}
