// The static library that the board's own program links, as include/quaysickle.h declares it: each export is the call of crate `board` of its name, with
// the same clause.
#![tactic(auto)]

ghost use Rattle.board.specs.Face.{WritesC, ReadsC};
ghost use Rattle.board.specs.Messages.{ReadsMessageC, WritesMessageC};

#[unsafe(no_mangle)]
pub extern "C" fn qs_packet_write(payload: &[u8], bits: &mut [u8], count: &mut u32) -> u32
    ensures { WritesC payload.now bits.old count.old result bits.new count.new }
{
    board::qs_packet_write(payload, bits, count)
}

#[unsafe(no_mangle)]
pub extern "C" fn qs_packet_read(bits: &[u8], payload: &mut [u8], count: &mut u32) -> u32
    ensures { ReadsC bits.now payload.old count.old result payload.new count.new }
{
    board::qs_packet_read(bits, payload, count)
}

#[unsafe(no_mangle)]
pub extern "C" fn qs_message_read(message: &[u8], fields: &mut [i32], count: &mut u32) -> u32
    ensures { ReadsMessageC message.now fields.old count.old result fields.new count.new }
{
    board::messages::qs_message_read(message, fields, count)
}

#[unsafe(no_mangle)]
pub extern "C" fn qs_message_write(fields: &[i32], message: &mut [u8]) -> u32
    ensures { WritesMessageC fields.now message.old result message.new }
{
    board::messages::qs_message_write(fields, message)
}
