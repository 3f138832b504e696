// Messages 1 to 4. Promises: `read` gives every field of 21 bytes as specs/Message.antt places it, and `write` the 21 bytes that read so;
// a refusal writes nothing. specs/Promises.antt has both round trips, "given exactly when" for each number, and that no second answer
// meets the contract. No message can be made whose state does not belong to its id, or whose sub-message not to its time-out.
#![tactic(auto)]

pub mod layout;
pub mod reading;
pub mod signs;
pub mod state;
pub mod writing;

ghost use Rattle.std.specs.Prelude.{◌≡◌};
ghost use Rattle.message.specs.Message.{read_answer, Writes};

use limits::MESSAGE;
use numbers::Refusal;
use reading::{head_of, message_in};
use state::{Incremental, SelfOrganised};
use writing::sheet_of;

// The position report of messages 1, 2 and 3.
#[derive(Clone, Copy)]
pub struct Report {
    pub repeat: u32,
    pub source: u32,
    pub status: u32,
    pub turn: i32,
    pub speed: u32,
    pub accuracy: u32,
    pub longitude: i32,
    pub latitude: i32,
    pub course: u32,
    pub heading: u32,
    pub second: u32,
    pub manoeuvre: u32,
    pub spare: u32,
    pub raim: u32,
}

// The base station's report of message 4.
#[derive(Clone, Copy)]
pub struct Base {
    pub repeat: u32,
    pub source: u32,
    pub year: u32,
    pub month: u32,
    pub day: u32,
    pub hour: u32,
    pub minute: u32,
    pub second: u32,
    pub accuracy: u32,
    pub longitude: i32,
    pub latitude: i32,
    pub fix: u32,
    pub control: u32,
    pub spare: u32,
    pub raim: u32,
}

#[derive(Clone, Copy)]
pub enum Message {
    One(Report, SelfOrganised),
    Two(Report, SelfOrganised),
    Three(Report, Incremental),
    Four(Base, SelfOrganised),
    // of an id that is not 1 to 4. No bytes give it; it stands so that `write` can be asked for it, and refuse it with 18
    Other,
}

// The message in 21 bytes: 17, 18.
pub fn read(bytes: &[u8]) -> Result<Message, Refusal>
    ensures { result ≡ read_answer bytes.now }
{
    let head = head_of(bytes)?;
    let whole = head.bytes;
    Ok(message_in(whole, head.id))
}

// The 21 bytes of a message in the first places of out: 12, 18, 19.
pub fn write(message: Message, out: &mut [u8]) -> Result<(), Refusal>
    ensures { Writes message out.old result out.new }
{
    if out.len() < MESSAGE {
        return Err(Refusal::NoRoom);
    }
    let sheet = sheet_of(message).ok_or(Refusal::UnknownId)?;
    if !sheet.fits() {
        return Err(Refusal::TooWide);
    }
    sheet.put(out);
    Ok(())
}
