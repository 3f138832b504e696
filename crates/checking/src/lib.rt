// The check sequence, four bytes at a time. Promise: the register goes as specs/Check.antt defines it bit by bit. It is kept mirrored, so
// that bytes come in as they stand and none is turned.
#![tactic(auto)]

ghost use Rattle.std.specs.Prelude.{◌≡◌, ◌+◌, ◌*◌, ◌%◌, ◌≤◌, length, take, drop};
ghost use Rattle.bits.specs.Bits.{low_first, sent_bits};
ghost use Rattle.checking.specs.Check.{zeros, through, mirrored};

// Four bytes into the register, by one division of both by x^16 + x^12 + x^5 + 1. The first bit stands lowest and has the highest power, so
// with s for one place up the divisor is 1 + s^4 + s^11 + s^16. The quotient is the word times its inverse as far as s^31, which is
// (1 + s^4 + s^11 + s^20 + s^27) (1 + s^8 + s^22); what is left are the 16 places after these of the quotient times the divisor.
pub fn step(reg: u16, four: u32) -> u16
    ensures { mirrored result ≡ through (mirrored reg) (low_first 32 four) }
{
    let word = four ^ (reg as u32);
    let part = word ^ (word << 4) ^ (word << 11) ^ (word << 20) ^ (word << 27);
    let quotient = part ^ (part << 8) ^ (part << 22);
    let product = quotient ^ (quotient >> 5) ^ (quotient >> 12);
    (product >> 16) as u16
}

// Whole fours of bytes into the register.
fn step_all(bytes: &[u8], from: u16) -> u16
    requires { length bytes.now % 4 ≡ 0 }
    ensures { mirrored result ≡ through (mirrored from) (sent_bits bytes.now) }
{
    let (fours, _) = bytes.as_chunks::<4>();
    let mut reg = from;
    for four in fours {
        reg = step(reg, u32::from_le_bytes(*four));
    }
    reg
}

// The register that is all ones after so many bytes of zeros.
pub fn before(count: usize) -> u16
    requires { count ≤ 4 }
    ensures { through (mirrored result) (zeros (8 * count)) ≡ 0xffff }
{
    match count {
        0 => 65535,
        1 => 12408,
        2 => 62241,
        3 => 36532,
        _ => 60458,
    }
}

// The register after the first n bytes behind four zeros, as many of which go in before them as make whole fours.
pub fn register_after(bytes: &[u8], n: usize) -> u16
    requires { (take 4 bytes.now ≡ zeros 4) × (n ≤ 24) × (n + 4 ≤ length bytes.now) }
    ensures { mirrored result ≡ through 0xffff (sent_bits (take n (drop 4 bytes.now))) }
{
    let missing = (24 - n) % 4;
    step_all(&bytes[4 - missing..4 + n], before(missing))
}
