// Link packets, from opening to closing flag. Promises: each of `write` and `read` gives, for every input, the answer and leaves in the
// lent buffer the content that specs/Packet.antt says; a refusal leaves the buffer as it was. specs/Promises.antt has both round trips,
// "given exactly when" for each number, and that no second answer meets the contract.
#![tactic(auto)]

pub mod reading;
pub mod writing;

ghost use Rattle.packet.specs.Packet.{Writes, Reads};

use bits::{are_bits, byte_at};
use limits::{LEAST_PACKET, MOST_PACKET, PAYLOAD};
use numbers::Refusal;
use reading::unpack;
use writing::build;

const FLAG: u8 = 0x7e;

// The packet of a payload, one bit to a byte, in the first places of out: 11, 12.
#[tactic(auto, using(crate::proofs::Answers::writing_steps), unfolding(crate::specs::Packet::write_out))]
pub fn write(payload: &[u8], out: &mut [u8]) -> Result<usize, Refusal>
    ensures { Writes payload.now out.old result out.new }
{
    if !(1..=PAYLOAD).contains(&payload.len()) {
        return Err(Refusal::BadLength);
    }
    if out.len() < MOST_PACKET {
        return Err(Refusal::NoRoom);
    }
    Ok(build(payload, out))
}

// The payload of a packet in the first places of out: 11, 12, 10, 13 to 16.
#[tactic(auto, using(crate::proofs::Answers::reading_steps), unfolding(crate::specs::Packet::read_out))]
pub fn read(bits: &[u8], out: &mut [u8]) -> Result<usize, Refusal>
    ensures { Reads bits.now out.old result out.new }
{
    let n = bits.len();
    if !(LEAST_PACKET..=MOST_PACKET).contains(&n) {
        return Err(Refusal::BadLength);
    }
    if out.len() < PAYLOAD {
        return Err(Refusal::NoRoom);
    }
    if !are_bits(bits) {
        return Err(Refusal::NotBits);
    }
    if byte_at(bits, 0) != FLAG || byte_at(bits, n - 8) != FLAG {
        return Err(Refusal::NoFlag);
    }
    unpack(bits, out)
}
