// Messages: read into a list of numbers, and written of one.
ghost use Rattle.board.specs.Messages.{ReadsMessageC, WritesMessageC};

use limits::{LIST_PLACES, MESSAGE};
use listing::message_in;
use listing::putting::list;
use message::reading::head_of;
use message::write;
use numbers::Refusal;

pub fn qs_message_read(message: &[u8], fields: &mut [i32], count: &mut u32) -> u32
    ensures { ReadsMessageC message.now fields.old count.old result fields.new count.new }
{
    if fields.len() < LIST_PLACES {
        return Refusal::NoRoom.into();
    }
    match head_of(message) {
        Ok(head) => {
            let bytes = head.bytes;
            *count = list(bytes, head.id, fields);
            0
        }
        Err(unread) => u32::from(unread),
    }
}

pub fn qs_message_write(fields: &[i32], message: &mut [u8]) -> u32
    ensures { WritesMessageC fields.now message.old result message.new }
{
    if message.len() < MESSAGE {
        return Refusal::NoRoom.into();
    }
    if fields.len() < LIST_PLACES {
        return Refusal::MessageLength.into();
    }
    match write(message_in(fields), message) {
        Ok(()) => 0,
        Err(unwritten) => u32::from(unwritten),
    }
}
