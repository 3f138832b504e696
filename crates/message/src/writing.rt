// The fields of a message, as they are written. Promise: they are `sheet_of` it (specs/Sheet.antt), and are tested and written as its `fields_of`.
ghost use Rattle.std.specs.Prelude.{◌≡◌, true, ◌≤◌, length};
ghost use Rattle.laws.specs.Lists.{over};
ghost use Rattle.limits.specs.Limits.{message_bytes};
ghost use Rattle.bits.specs.Field.{packed};
ghost use Rattle.bits.specs.Row.{laid, all_fit};
ghost use Rattle.message.specs.Sheet.{fields_of, report_rows, base_rows, sheet_of};

use crate::layout::{BASE, FLAG_AND_STATE, REPORT, Rows};
use crate::signs::unsigned;
use crate::state::{incremental_value, organised_value};
use crate::{Base, Message, Report};
use bits::row::Four;

// All fields of a message, in the rows of one layout or the other.
#[derive(Clone, Copy)]
pub enum Sheet {
    Report(Rows),
    Base(Rows),
}

impl Sheet {
    // Has every field its width?
    pub fn fits(self) -> bool
        ensures { result ≡ all_fit (fields_of self) }
    {
        match self {
            Sheet::Report(x) => REPORT.fits(x),
            Sheet::Base(x) => BASE.fits(x),
        }
    }

    // Writes the rows into the first 21 bytes.
    pub fn put(self, out: &mut [u8])
        requires { (message_bytes ≤ length out.old) × (all_fit (fields_of self) ≡ true) }
        ensures { out.new ≡ over (packed message_bytes (laid (fields_of self))) out.old }
    {
        match self {
            Sheet::Report(x) => REPORT.put(x, out),
            Sheet::Base(x) => BASE.put(x, out),
        }
    }
}

fn report_rows(id: u32, r: Report, state: u32) -> Rows
    ensures { result ≡ report_rows id r state }
{
    let turn = unsigned(r.turn, 8);
    let longitude = unsigned(r.longitude, 28);
    let latitude = unsigned(r.latitude, 27);
    Rows {
        a: Four {
            a: id,
            b: r.repeat,
            c: r.source,
            d: r.status,
        },
        b: Four {
            a: turn,
            b: r.speed,
            c: r.accuracy,
            d: longitude,
        },
        c: Four {
            a: latitude,
            b: r.course,
            c: r.heading,
            d: r.second,
        },
        d: Four {
            a: r.manoeuvre,
            b: r.spare,
            c: r.raim,
            d: state,
        },
    }
}

fn base_rows(b: Base, state: u32) -> Rows
    ensures { result ≡ base_rows b state }
{
    let longitude = unsigned(b.longitude, 28);
    let latitude = unsigned(b.latitude, 27);
    let last = Four {
        a: b.raim,
        b: state,
        c: 0,
        d: 0,
    };
    Rows {
        a: Four {
            a: 4,
            b: b.repeat,
            c: b.source,
            d: b.year,
        },
        b: Four {
            a: b.month,
            b: b.day,
            c: b.hour,
            d: b.minute,
        },
        c: Four {
            a: b.second,
            b: b.accuracy,
            c: longitude,
            d: latitude,
        },
        d: Four {
            a: b.fix,
            b: b.control,
            c: b.spare,
            d: last.one(FLAG_AND_STATE),
        },
    }
}

// None where the id is not 1 to 4.
pub fn sheet_of(message: Message) -> Option<Sheet>
    ensures { result ≡ sheet_of message }
{
    match message {
        Message::One(r, s) => Some(Sheet::Report(report_rows(1, r, organised_value(s)))),
        Message::Two(r, s) => Some(Sheet::Report(report_rows(2, r, organised_value(s)))),
        Message::Three(r, s) => Some(Sheet::Report(report_rows(3, r, incremental_value(s)))),
        Message::Four(b, s) => Some(Sheet::Base(base_rows(b, organised_value(s)))),
        Message::Other => None,
    }
}
