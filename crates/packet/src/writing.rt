// The packet of a payload: flag, payload and check stuffed, flag. Promise: it is `packet_of` of the payload (specs/Packet.antt).
ghost use Rattle.std.specs.Prelude.{◌≡◌, ◌++◌, ◌+◌, ◌-◌, ◌*◌, ◌%◌, ◌≤◌, ◌<◌, length};
ghost use Rattle.std.proofs.lemmas.List.Edits.{sets};
ghost use Rattle.laws.specs.Lists.{over};
ghost use Rattle.limits.specs.Limits.{payload_bytes, most_packet};
ghost use Rattle.bits.specs.Bits.{low_first, sent_bits};
ghost use Rattle.checking.specs.Check.{zeros, through, mirrored};
ghost use Rattle.stuffing.specs.Stuff.{flag};
ghost use Rattle.stuffing.specs.Sending.{to_come, Leads};
ghost use Rattle.packet.specs.Packet.{packet_of};

use bits::store_eight;
use checking::{before, step};
use stuffing::stuff::Sending;

fn put_flag(out: &mut [u8], at: usize)
    requires { at + 8 ≤ length out.old }
    ensures { out.new ≡ sets out.old at flag }
{
    store_eight(out, at, 0x0001010101010100);
}

// Where writing stands: where sending does, and the register after what was sent. The lent buffer goes beside it, so that a clause can name what it
// holds before and after.
#[derive(Clone, Copy)]
struct Progress {
    place: Sending,
    reg: u16,
}

// Up to four bytes as the last ones of four whose others are zeros. By hand: fewer than four bytes are no array that `from_le_bytes` takes.
fn behind_zeros(bytes: &[u8]) -> u32
    requires { length bytes.now ≤ 4 }
    ensures { low_first 32 result ≡ zeros (32 - 8 * length bytes.now) ++ sent_bits bytes.now }
{
    let mut v: u32 = 0;
    for b in bytes {
        v = v / 256 + u32::from(*b) * 16777216;
    }
    v
}

// Bytes, fewer than four, one by one, from a register that is all ones.
fn send_few(bytes: &[u8], out: &mut [u8], from: Sending) -> Progress
    requires { (length bytes.now < 4) × (from.at + length (to_come from.tail (sent_bits bytes.now)) ≤ length out.old) }
    ensures { Leads (sent_bits bytes.now) from out.old result.place out.new × (mirrored result.reg ≡ through 0xffff (sent_bits bytes.now)) }
{
    let mut place = from;
    for b in bytes {
        place = place.send::<1>(u64::from(*b), out);
    }
    Progress {
        place,
        reg: step(before(4 - bytes.len()), behind_zeros(bytes)),
    }
}

impl Progress {
    // Four bytes. The register and the sending do not wait for each other.
    fn send_four(self, four: u32, out: &mut [u8]) -> Progress
        requires { self.place.at + 40 ≤ length out.old }
        ensures { Leads (low_first 32 four) self.place out.old result.place out.new × (mirrored result.reg ≡ through (mirrored self.reg) (low_first 32 four)) }
    {
        Progress {
            reg: step(self.reg, four),
            place: self.place.send::<4>(u64::from(four), out),
        }
    }

    // Whole fours of bytes.
    fn send_fours(self, bytes: &[u8], out: &mut [u8]) -> Progress
        requires { (length bytes.now % 4 ≡ 0) × (self.place.at + length (to_come self.place.tail (sent_bits bytes.now)) ≤ length out.old) }
        ensures { Leads (sent_bits bytes.now) self.place out.old result.place out.new × (mirrored result.reg ≡ through (mirrored self.reg) (sent_bits bytes.now)) }
    {
        let (fours, _) = bytes.as_chunks::<4>();
        let mut s = self;
        for four in fours {
            s = s.send_four(u32::from_le_bytes(*four), out);
        }
        s
    }
}

// The packet of a payload of at most 21 bytes, where there is room for it: how many bits. The bytes that are more than whole fours go first.
pub fn build(payload: &[u8], out: &mut [u8]) -> usize
    requires { (length payload.now ≤ payload_bytes) × (most_packet ≤ length out.old) }
    ensures { (result ≡ length (packet_of payload.now)) × (out.new ≡ over (packet_of payload.now) out.old) }
{
    put_flag(out, 0);
    let few = payload.len() % 4;
    let first = send_few(&payload[..few], out, Sending { at: 8, tail: 0 });
    let all = first.send_fours(&payload[few..], out);
    let check = 0xffff - all.reg;
    let end = all.place.send::<2>(u64::from(check), out);
    put_flag(out, end.at);
    end.at + 8
}
