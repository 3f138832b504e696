// The message that a list of 21 numbers says.
ghost use Rattle.std.specs.Prelude.{◌≡◌, ◌+◌, ◌≤◌, ◌<◌, length};
ghost use Rattle.limits.specs.Limits.{list_places};
ghost use Rattle.listing.specs.Listing.{plain_of, plain_at, report_in, base_in, pairs_of, sub_said, organised_in, incremental_in};

use bits::row::Four;
use message::state::{Clock, Counted, Incremental, SelfOrganised, SubMessage};
use message::{Base, Report};

// A number below 0 becomes one that is too wide for every field, so that the one test of widths refuses it.
fn plain(x: i32) -> u32
    ensures { result ≡ plain_of x }
{
    u32::try_from(x).unwrap_or(u32::MAX)
}

pub fn plain_at(list: &[i32], i: usize) -> u32
    requires { i < length list.now }
    ensures { result ≡ plain_at list.now i }
{
    plain(list[i])
}

// Four numbers from place i on.
fn plain_four(list: &[i32], i: usize) -> Four
    requires { i + 4 ≤ length list.now }
    ensures { (result.a ≡ plain_at list.now i) × (result.b ≡ plain_at list.now (i + 1)) × (result.c ≡ plain_at list.now (i + 2)) × (result.d ≡ plain_at list.now (i + 3)) }
{
    Four {
        a: plain_at(list, i),
        b: plain_at(list, i + 1),
        c: plain_at(list, i + 2),
        d: plain_at(list, i + 3),
    }
}

// A report, and below a base station's: other fields in another order, each named once. So it is in putting.rt too.
pub fn report_in(list: &[i32]) -> Report
    requires { list_places ≤ length list.now }
    ensures { result ≡ report_in list.now }
{
    // the fourth of the first ones is the turn
    let f = plain_four(list, 1);
    let g = plain_four(list, 11);
    Report {
        repeat: f.a,
        source: f.b,
        status: f.c,
        turn: list[4],
        speed: plain_at(list, 5),
        accuracy: plain_at(list, 6),
        longitude: list[7],
        latitude: list[8],
        course: plain_at(list, 9),
        heading: plain_at(list, 10),
        second: g.a,
        manoeuvre: g.b,
        spare: g.c,
        raim: g.d,
    }
}

pub fn base_in(list: &[i32]) -> Base
    requires { list_places ≤ length list.now }
    ensures { result ≡ base_in list.now }
{
    let f = plain_four(list, 1);
    let g = plain_four(list, 5);
    let h = plain_four(list, 12);
    Base {
        repeat: f.a,
        source: f.b,
        year: f.c,
        month: f.d,
        day: g.a,
        hour: g.b,
        minute: g.c,
        second: g.d,
        accuracy: plain_at(list, 9),
        longitude: list[10],
        latitude: list[11],
        fix: h.a,
        control: h.b,
        spare: h.c,
        raim: h.d,
    }
}

// Which of every other time-out from 2 or 3 on; past 7 one that is too wide, which the same test refuses.
fn pairs(t: u32) -> u8
    requires { 2 ≤ t }
    ensures { result ≡ pairs_of t }
{
    if t > 7 {
        return 3;
    }
    ((t - 2) / 2) as u8
}

// What the time-out t, whose place is at, says.
fn sub_said(list: &[i32], at: usize, t: u32) -> SubMessage
    requires { at + 4 ≤ length list.now }
    ensures { result ≡ sub_said list.now at t }
{
    let number = plain_at(list, at + 1);
    if t == 0 {
        return SubMessage::Offset(number);
    }
    if t == 1 {
        return SubMessage::Time(Clock {
            hour: number,
            minute: plain_at(list, at + 2),
            unused: plain_at(list, at + 3),
        });
    }
    let counted = Counted {
        pairs: pairs(t),
        number,
    };
    if t % 2 == 0 {
        return SubMessage::Slot(counted);
    }
    SubMessage::Stations(counted)
}

pub fn organised_in(list: &[i32], at: usize) -> SelfOrganised
    requires { at + 5 ≤ length list.now }
    ensures { result ≡ organised_in list.now at }
{
    let next = at + 1;
    let sub = sub_said(list, next, plain_at(list, next));
    SelfOrganised {
        sync: plain_at(list, at),
        sub,
    }
}

pub fn incremental_in(list: &[i32]) -> Incremental
    requires { list_places ≤ length list.now }
    ensures { result ≡ incremental_in list.now }
{
    let f = plain_four(list, 15);
    Incremental {
        sync: f.a,
        increment: f.b,
        code: f.c,
        keep: f.d,
    }
}
