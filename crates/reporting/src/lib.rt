// The report of a slot of ours: time-out and sub-message. Promises: `report` gives what specs/Report.antt defines, for every book and every plan in its range; it only
// looks. The book stays a slice of its length: see crate `register`. specs/Promises.antt has what the time-out and the offset say of the book.
#![tactic(auto)]

pub mod look;

ghost use Rattle.std.specs.Prelude.{◌≡◌, ◌≤◌, length};
ghost use Rattle.limits.specs.Limits.{slot_times, records, most_time_out};
ghost use Rattle.plan.specs.Plan.{InRange};
ghost use Rattle.reporting.specs.Report.{sub_message, time_fits, reported};

use limits::FRAME;
use look::{frames_own, next_own, own_at};
use message::state::{Clock, Counted, SubMessage};
use numbers::Refusal;
use plan::Plan;

// The hour and minute that the caller has.
#[derive(Clone, Copy)]
pub struct Time {
    pub hour: u32,
    pub minute: u32,
}

// What a report with the time-out n says.
#[tactic(auto, unfolding(crate::specs::Report::sub_message))]
fn sub_message(
    book: &[u16],
    stations: usize,
    present: usize,
    p: Plan,
    time: Time,
    n: usize,
) -> SubMessage
    requires { (length book.now ≡ slot_times) × (stations ≤ records) × InRange p × (n ≤ most_time_out) }
    ensures { result ≡ sub_message book.now stations present p time n }
{
    if n == 0 {
        return SubMessage::Offset(next_own(book, present, p) as u32);
    }
    if n == 1 {
        return SubMessage::Time(Clock {
            hour: time.hour,
            minute: time.minute,
            unused: 0,
        });
    }
    if n % 2 == 0 {
        return SubMessage::Slot(Counted {
            pairs: ((n - 2) / 2) as u8,
            number: (present % FRAME) as u32,
        });
    }
    SubMessage::Stations(Counted {
        pairs: ((n - 3) / 2) as u8,
        number: stations as u32,
    })
}

// Whether hour and minute are such.
#[tactic(auto, unfolding(crate::specs::Report::time_fits))]
pub fn fits(time: Time) -> bool
    ensures { result ≡ time_fits time }
{
    time.hour <= 23 && time.minute <= 59
}

// The report of the present slot, with so many stations received: 36. The time-out follows from which sub-message it is.
#[tactic(auto, unfolding(crate::specs::Report::reported))]
pub fn report(
    book: &[u16],
    stations: usize,
    present: usize,
    p: Plan,
    time: Time,
) -> Result<SubMessage, Refusal>
    requires { (length book.now ≡ slot_times) × (stations ≤ records) × InRange p }
    ensures { result ≡ reported book.now stations present p time }
{
    if !own_at(book, present, 0) {
        return Err(Refusal::NotOwn);
    }
    let n = frames_own(book, present);
    Ok(sub_message(book, stations, present, p, time, n))
}
