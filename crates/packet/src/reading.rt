// What the bits of a packet hold: the bytes between its flags, unstuffed, and the payload where its check is right. That every bit is 0 or 1 stands
// in the clause of each function, and in no type: they go on to slices and chunks of the bits, each of which a type would have to be made for anew.
ghost use Rattle.std.specs.Prelude.{◌≡◌, true, ◌++◌, ◌+◌, ◌-◌, ◌*◌, ◌/◌, ◌%◌, ◌^◌, ◌≤◌, ◌<◌, length, take, drop};
ghost use Rattle.laws.specs.Lists.{over};
ghost use Rattle.limits.specs.Limits.{payload_bytes, least_checked, most_checked, least_packet, most_packet};
ghost use Rattle.bits.specs.Bits.{low_first, sent_bits, all_bits};
ghost use Rattle.checking.specs.Check.{zeros};
ghost use Rattle.packet.specs.Packet.{body_of, frame_in, frame_answer, body_answer, read_out};
ghost use Rattle.stuffing.specs.Taking.{Sound, Took};
ghost use Rattle.packet.specs.Reading.{raw_bytes, Unstuffed};

use bits::{store_eight, word_at};
use checking::register_after;
use limits::{LEAST_CHECKED, MOST_BODY, MOST_CHECKED};
use numbers::Refusal;
use stuffing::unstuff::{Taking, take_word};

// What is read goes behind four bytes of zeros, eight bytes at a time: the bytes that this may touch, and how many there are in the end. An array with a count in
// `Taking`, and no list: the next eight bytes cover those that were too many.
const RAW: usize = (MOST_BODY + 32) / 8 + 8;

const LEAST_RAW: usize = 4 + LEAST_CHECKED / 8;

const MOST_RAW: usize = 4 + MOST_CHECKED / 8;

// The first bits of the body, as many as are more than whole words, as the last ones of a word whose others are 0.
fn first_word(bits: &[u8], over: usize) -> u64
    requires { (all_bits bits.now ≡ true) × (over < 32) × (least_packet ≤ length bits.now) }
    ensures { (low_first 32 result ≡ zeros (32 - over) ++ take over (drop 8 bits.now)) × (result < 2 ^ 32) }
{
    (word_at(bits, 8) << (32 - over)) % 0x100000000
}

// Whole words of bits.
fn take_all(part: &[u8], raw: &mut [u8], from: Taking) -> Taking
    requires { (all_bits part.now ≡ true) × (length part.now % 32 ≡ 0) × Sound from raw.old × (8 * from.count + from.have + length part.now + 32 ≤ 8 * length raw.old) }
    ensures { Took part.now from raw.old result raw.new }
{
    let mut s = from;
    for word in part.chunks_exact(32) {
        s = take_word(word_at(word, 0), raw, s);
    }
    s
}

// All bits between the flags. What is over goes first, so that from then on 32 bits make four bytes; the first four bytes are zeros.
fn unstuff(bits: &[u8], raw: &mut [u8; RAW]) -> Taking
    requires { (all_bits bits.now ≡ true) × (least_packet ≤ length bits.now) × (length bits.now ≤ most_packet) }
    ensures { Unstuffed (body_of bits.now) result raw.new }
{
    let n = bits.len();
    let over = (n - 16) % 32;
    let start = Taking {
        tail: 0,
        spoilt: false,
        part: 0,
        have: over as u64,
        count: 0,
    };
    let first = take_word(first_word(bits, over), raw, start);
    take_all(&bits[8 + over..n - 8], raw, first)
}

// The payload of whole bytes, payload and check, behind four zeros: 16.
fn unframe(raw: &[u8], out: &mut [u8]) -> Result<usize, Refusal>
    requires { (sent_bits (take 4 raw.now) ≡ zeros 32) × (4 + least_checked / 8 ≤ length raw.now) × (length raw.now ≤ 4 + most_checked / 8) × (payload_bytes ≤ length out.old) }
    ensures { (result ≡ frame_answer (sent_bits (drop 4 raw.now))) × (out.new ≡ read_out result (sent_bits (drop 4 raw.now)) out.old) }
{
    let n = raw.len() - 6;
    let end = 4 + n;
    let sent = u16::from_le_bytes([raw[end], raw[end + 1]]);
    if 0xffff - register_after(raw, n) != sent {
        return Err(Refusal::BadCheck);
    }
    out[..n].copy_from_slice(&raw[4..end]);
    Ok(n)
}

// The payload of a packet of bits between flags: 14, 15, 16.
pub fn unpack(bits: &[u8], out: &mut [u8]) -> Result<usize, Refusal>
    requires { (all_bits bits.now ≡ true) × (least_packet ≤ length bits.now) × (length bits.now ≤ most_packet) × (payload_bytes ≤ length out.old) }
    ensures { (result ≡ body_answer (body_of bits.now)) × (out.new ≡ read_out result (frame_in (body_of bits.now)) out.old) }
{
    let mut raw = [0u8; RAW];
    let end = unstuff(bits, &mut raw);
    if end.spoilt || end.tail == 31 {
        return Err(Refusal::BadStuffing);
    }
    if end.have % 8 != 0 {
        return Err(Refusal::NotWhole);
    }
    let n = end.count + (end.have / 8) as usize;
    if !(LEAST_RAW..=MOST_RAW).contains(&n) {
        return Err(Refusal::NotWhole);
    }
    store_eight(&mut raw, end.count, end.part);
    unframe(&raw[..n], out)
}
