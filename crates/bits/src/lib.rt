// Bits, one to a byte, and the bytes that they make. Promises: a turned byte is its index in the table with the eight bits reversed;
// bits are stored, tested and gathered as specs/Bits.antt says.
#![tactic(auto)]

pub mod field;
pub mod reader;
pub mod row;
pub mod turn;

ghost use Rattle.std.specs.Prelude.{◌≡◌, ◌+◌, ◌≤◌, true, length, take, drop};
ghost use Rattle.std.proofs.lemmas.List.Edits.{sets};
ghost use Rattle.bits.specs.Bits.{high_first, low_value, all_bits, eight_of};

// The bits of a byte as the eight bytes of a number, the highest bit in the lowest byte. The factor, to which the shift adds the place 63,
// brings bit 7 - j to place 8 j + 7, and no two of its products meet. A compiler makes one product of the two.
pub fn spread(t: u8) -> u64
    ensures { eight_of result ≡ high_first 8 t }
{
    let all = (t as u64) * 0x0040201008040201 + ((t as u64) << 63);
    (all / 128) & 0x0101010101010101
}

// The eight bytes of a number from place at on, the lowest first. A compiler makes one store of them.
pub fn store_eight(out: &mut [u8], at: usize, z: u64)
    requires { at + 8 ≤ length out.old }
    ensures { out.new ≡ sets out.old at (eight_of z) }
{
    out[at..at + 8].copy_from_slice(&z.to_le_bytes());
}

// Is every byte 0 or 1? Without a way out of the loop, so that it goes by many bytes at a time.
fn all_small(bits: &[u8]) -> bool
    ensures { result ≡ all_bits bits.now }
{
    bits.iter().fold(0, |most: u8, b| most.max(*b)) <= 1
}

// The same by blocks of 32 bytes, the last of which may overlap, so that no bytes are over and go one by one.
pub fn are_bits(bits: &[u8]) -> bool
    ensures { result ≡ all_bits bits.now }
{
    let Some(last) = bits.last_chunk::<32>() else {
        return all_small(bits);
    };
    all_small(&bits[..bits.len() / 32 * 32]) && all_small(last)
}

// So many bytes from place at on. By a copy, which a compiler makes one load of: `first_chunk` would test once more that they are there.
fn chunk_at<const N: usize>(bytes: &[u8], at: usize) -> [u8; N]
    requires { at + N ≤ length bytes.now }
    ensures { result ≡ take N (drop at bytes.now) }
{
    let mut chunk = [0; N];
    chunk.copy_from_slice(&bytes[at..at + N]);
    chunk
}

// The number that eight bits make, the lowest first. The factor brings bit j from place 8 j to place 56 + j, no two of its products meet, and
// the others stay below or leave at the top.
pub fn byte_at(bits: &[u8], at: usize) -> u8
    requires { (all_bits bits.now ≡ true) × (at + 8 ≤ length bits.now) }
    ensures { result ≡ low_value (take 8 (drop at bits.now)) }
{
    let eight = u64::from_le_bytes(chunk_at(bits, at));
    (eight.wrapping_mul(0x0102040810204080) >> 56) as u8
}

// The number that 32 bits make, the lowest first.
pub fn word_at(bits: &[u8], at: usize) -> u64
    requires { (all_bits bits.now ≡ true) × (at + 32 ≤ length bits.now) }
    ensures { result ≡ low_value (take 32 (drop at bits.now)) }
{
    u32::from_le_bytes([
        byte_at(bits, at),
        byte_at(bits, at + 8),
        byte_at(bits, at + 16),
        byte_at(bits, at + 24),
    ]) as u64
}
