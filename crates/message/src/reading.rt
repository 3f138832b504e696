// A message from its 21 bytes: its id, its fields as they are laid out, and the whole. Promise: it is `message_of` the bytes
// (specs/Message.antt).
ghost use Rattle.std.specs.Prelude.{◌≡◌, true, Err, MatchResult, length};
ghost use Rattle.laws.specs.Tests.{between};
ghost use Rattle.limits.specs.Limits.{message_bytes};
ghost use Rattle.message.specs.State.{organised_of};
ghost use Rattle.message.specs.Message.{id_in, base_of, message_of, read_answer};
ghost use Rattle.message.specs.Sheet.{report_read, base_read, organised_from, StandsIn, one_or_two};
ghost use Rattle.message.specs.declared.Message.TheVariants.{Four as Station};

use crate::layout::{BASE, FLAG_AND_STATE, REPORT};
use crate::signs::signed;
use crate::state::{State, organised_in, organised_of, state_in};
use crate::{Base, Message, Report};
use bits::field::field;
use limits::MESSAGE;
use numbers::Refusal;

// A report, and its state as one number of 19 bits; and the same of a base station's. Two structs, since `report_read` and `base_read` (specs/Sheet.antt) name their
// fields.
#[derive(Clone, Copy)]
pub struct ReportRead {
    pub report: Report,
    pub state: u32,
}

#[derive(Clone, Copy)]
pub struct BaseRead {
    pub base: Base,
    pub state: u32,
}

// The 21 bytes of a message, and the id that they begin with: as the number that stands there, since the definitions and the list for C speak
// of it. That the array has its length is said again: of an array that a field refers to, a proof does not know it.
#[derive(Clone, Copy)]
pub struct Head<'a> {
    pub bytes: &'a [u8; MESSAGE],
    pub id: u32,
    pub ghost whole: { length bytes.now ≡ message_bytes },
    pub ghost told: { id ≡ id_in bytes.now },
}

fn id_in(bytes: &[u8; MESSAGE]) -> u32
    ensures { result ≡ id_in bytes.now }
{
    field(bytes, 0, 6)
}

// The head of a message that can be read, of just these bytes: 17, 18.
pub fn head_of(bytes: &[u8]) -> Result<Head<'_>, Refusal>
    ensures { MatchResult result (λ head. (head.bytes.now ≡ bytes.now) × (between 1 4 head.id ≡ true)) (λ r. read_answer bytes.now ≡ Err r) }
{
    let Some(whole) = bytes.as_array::<MESSAGE>() else {
        return Err(Refusal::MessageLength);
    };
    let id = id_in(whole);
    match id {
        1..=4 => Ok(Head { bytes: whole, id }),
        _ => Err(Refusal::UnknownId),
    }
}

// A report, and below a base station's: other fields in another order, each named once. So it is in writing.rt too.
pub fn report_in(bytes: &[u8]) -> ReportRead
    requires { length bytes.now ≡ message_bytes }
    ensures { result ≡ report_read bytes.now }
{
    let x = REPORT.read(bytes);
    let report = Report {
        repeat: x.a.b,
        source: x.a.c,
        status: x.a.d,
        turn: signed(x.b.a, 8),
        speed: x.b.b,
        accuracy: x.b.c,
        longitude: signed(x.b.d, 28),
        latitude: signed(x.c.a, 27),
        course: x.c.b,
        heading: x.c.c,
        second: x.c.d,
        manoeuvre: x.d.a,
        spare: x.d.b,
        raim: x.d.c,
    };
    ReportRead {
        report,
        state: x.d.d,
    }
}

pub fn base_in(bytes: &[u8]) -> BaseRead
    requires { length bytes.now ≡ message_bytes }
    ensures { result ≡ base_read bytes.now }
{
    let x = BASE.read(bytes);
    let last = FLAG_AND_STATE.split(x.d.d);
    let base = Base {
        repeat: x.a.b,
        source: x.a.c,
        year: x.a.d,
        month: x.b.a,
        day: x.b.b,
        hour: x.b.c,
        minute: x.b.d,
        second: x.c.a,
        accuracy: x.c.b,
        longitude: signed(x.c.c, 28),
        latitude: signed(x.c.d, 27),
        fix: x.d.a,
        control: x.d.b,
        spare: x.d.c,
        raim: last.a,
    };
    BaseRead {
        base,
        state: last.b,
    }
}

// Message 4.
fn base_message(bytes: &[u8]) -> Message
    requires { length bytes.now ≡ message_bytes }
    ensures { result ≡ Station (base_of bytes.now) (organised_of bytes.now) }
{
    let x = base_in(bytes);
    Message::Four(x.base, organised_in(x.state))
}

// Message 1 or 2, whose state is v.
fn organised(id: u32, report: Report, state: State, v: u32) -> Message
    requires { StandsIn v state }
    ensures { result ≡ one_or_two id report (organised_from v) }
{
    let s = organised_of(state, v);
    if id == 2 {
        return Message::Two(report, s);
    }
    Message::One(report, s)
}

// The message, by its id. Message 3 alone carries the incremental state.
pub fn message_in(bytes: &[u8], id: u32) -> Message
    requires { (length bytes.now ≡ message_bytes) × (id ≡ id_in bytes.now) }
    ensures { result ≡ message_of bytes.now }
{
    if id == 4 {
        return base_message(bytes);
    }
    let x = report_in(bytes);
    let state = state_in(id, x.state);
    let State::Incremental(i) = state else {
        return organised(id, x.report, state, x.state);
    };
    Message::Three(x.report, i)
}
