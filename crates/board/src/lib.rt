// The C face: what the radio board's own program calls, declared in include/quaysickle.h; crate `board_c` exports each call under its name. Promise: each
// call returns the paper's number, 0 for none, and leaves in everything lent, the count too, what the packet crate's definitions say; a refusal leaves all
// of it. specs/Promises.antt has "given exactly when" for each number, and that no second answer meets the contract.
#![tactic(auto)]

pub mod messages;

ghost use Rattle.std.specs.Prelude.{◌≡◌, ◌^◌, ◌<◌, IfOk};
ghost use Rattle.numbers.specs.Numbers.{number_given};
ghost use Rattle.board.specs.Face.{count_given, WritesC, ReadsC};

use numbers::Refusal;
use packet::{read, write};

// Answers with the number given back, and sets the count where there is one.
fn tell(answer: Result<usize, Refusal>, count: &mut u32) -> u32
    requires { IfOk answer (λ n. n < 2 ^ 32) }
    ensures { (result ≡ number_given answer) × (count.new ≡ count_given answer count.old) }
{
    match answer {
        Ok(n) => {
            *count = n as u32;
            0
        }
        Err(r) => u32::from(r),
    }
}

pub fn qs_packet_write(payload: &[u8], bits: &mut [u8], count: &mut u32) -> u32
    ensures { WritesC payload.now bits.old count.old result bits.new count.new }
{
    tell(write(payload, bits), count)
}

pub fn qs_packet_read(bits: &[u8], payload: &mut [u8], count: &mut u32) -> u32
    ensures { ReadsC bits.now payload.old count.old result payload.new count.new }
{
    tell(read(bits, payload), count)
}
