// Hearing: what a message from another station does to the register and to the book. Promise: `hear` answers and leaves what specs/Hear.antt says, on every
// register and book that have their lengths, of a refusal too. Its parts: `find` looks the record up, `noted` says what is to be booked or why not, `store` enters
// the station, `free_times` and `mark_times` book what it announces; `hears-is` in proofs/Hears.antt has that they come to it. specs/Promises.antt has that the
// record is the lowest; which number is given first stands with the calls.
#![tactic(auto)]

ghost use Rattle.std.specs.Prelude.{◌≡◌, ◌-◌, true, ◌<◌, ◌≤◌, eqb, ltb, length, unwrap_or, IfSome};
ghost use Rattle.std.specs.List.{position};
ghost use Rattle.laws.specs.Tests.{pick};
ghost use Rattle.limits.specs.Limits.{slot_times, records};
ghost use Rattle.book.specs.Book.{Puts};
ghost use Rattle.announcing.specs.Rows.{in_book};
ghost use Rattle.announcing.specs.Next.{Next, kind_time};
ghost use Rattle.register.specs.State.{state_of, with_counts};
ghost use Rattle.register.specs.Answers.{out_of};
ghost use Rattle.walks.specs.Out.{Ends};
ghost use Rattle.ship.specs.declared.Station.{Station};
ghost use Rattle.hearing.specs.Station.{fair_other};
ghost use Rattle.hearing.specs.Hear.{mobile, telling_of, record_for, entered, heard_answer};
ghost use Rattle.hearing.specs.Booking.{noted_of, place_of, stored_in, holder_of, hand_at, Steps, BooksOne, Counted, BooksAll, Booked, freed_out, marked_out};

use announcing::rows::{Kind, ROWS, Row, announced, within};
use announcing::times::next_time;
use book::{Channel, Counts, Handing, Watch, free, mark, place};
use limits::{RECORDS, SLOT_TIMES};
use message::state::{SelfOrganised, State, SubMessage};
use message::{Message, Report};
use numbers::Refusal;
use register::{Answer, Marks, Reply, Turn, Turns, run};
use ship::Station;

// What hearing needs of a message.
#[derive(Clone, Copy)]
pub struct Telling {
    pub source: u32,
    pub repeat: u32,
    pub base: bool,
    pub latitude: i32,
    pub longitude: i32,
    pub state: State,
}

// A message that is heard, and the watch.
#[derive(Clone, Copy)]
pub struct Hearing {
    pub watch: Watch,
    pub telling: Telling,
}

// A report that is to be booked, with the station's record and the rows that it announces.
#[derive(Clone, Copy)]
pub struct Booking {
    pub watch: Watch,
    pub telling: Telling,
    pub at: usize,
    pub rows: [Row; ROWS],
}

fn mobile(r: Report, state: State) -> Telling
    ensures { result ≡ mobile r state }
{
    Telling {
        source: r.source,
        repeat: r.repeat,
        base: false,
        latitude: r.latitude,
        longitude: r.longitude,
        state,
    }
}

// What a message says of its station. A message 4 comes from a base station, any other from a mobile.
pub fn tell(message: Message) -> Telling
    ensures { result ≡ telling_of message }
{
    match message {
        Message::One(r, s) | Message::Two(r, s) => mobile(r, State::SelfOrganised(s)),
        Message::Three(r, s) => mobile(r, State::Incremental(s)),
        Message::Four(b, s) => Telling {
            source: b.source,
            repeat: b.repeat,
            base: true,
            latitude: b.latitude,
            longitude: b.longitude,
            state: State::SelfOrganised(s),
        },
        // No message: source 0, which no station has. `tell` cannot fail, and no bytes come here.
        Message::Other => Telling {
            source: 0,
            repeat: 0,
            base: false,
            latitude: 0,
            longitude: 0,
            state: State::SelfOrganised(SelfOrganised {
                sync: 0,
                sub: SubMessage::Offset(0),
            }),
        },
    }
}

// Whether another station can have this source; `own` is ours.
#[tactic(auto, unfolding(crate::specs::Station::fair_other))]
pub fn fair(source: u32, own: u32) -> bool
    ensures { result ≡ fair_other source own }
{
    source != own && ship::fair(source)
}

// ---- the record

// The first record of a station.
fn first_its(reg: &[Station], source: u32) -> Option<usize>
    ensures { result ≡ position (λ (s : Station). eqb s.source source) reg.now }
{
    reg.iter().position(|s| s.source == source)
}

// The first record that holds nothing.
fn first_idle(reg: &[Station]) -> Option<usize>
    ensures { result ≡ position (λ (s : Station). eqb s.tally 0) reg.now }
{
    reg.iter().position(|s| s.tally == 0)
}

// The record that the station has now: the lowest with its source, else the lowest with tally 0, which is taken over.
pub fn find(reg: &[Station], q: Hearing) -> Option<usize>
    requires { length reg.now ≡ records }
    ensures value { unwrap_or result records ≡ record_for reg.now q.telling.source }
    ensures inside { IfSome result (λ k. k < records) }
{
    first_its(reg, q.telling.source).or_else(|| first_idle(reg))
}

// What is to be booked, `k` being the station's record: 23, 35.
#[tactic(auto, unfolding(crate::specs::Booking::noted_of), using(crate::proofs::Noting::rows_inside))]
pub fn noted(q: Hearing, k: Option<usize>) -> Result<Booking, Refusal>
    ensures { result ≡ noted_of q (unwrap_or k records) }
{
    let at = match k {
        Some(at) if at < RECORDS => at,
        _ => return Err(Refusal::NoRecord),
    };
    let rows = announced(q.telling.state);
    if !within(rows) {
        return Err(Refusal::BeyondBook);
    }
    Ok(Booking {
        watch: q.watch,
        telling: q.telling,
        at,
        rows,
    })
}

// Asked again, and not kept in the type: `noted_of` (specs/Booking.antt) makes a booking of its fields alone.
#[tactic(auto, unfolding(crate::specs::Booking::place_of))]
fn place_of(b: &Booking) -> usize
    ensures value { result ≡ place_of b.now }
    ensures inside { result < records }
{
    if b.at < RECORDS { b.at } else { 0 }
}

// A record that is taken over has hold-off 0.
fn hold_of(s: Station, source: u32) -> u16
    ensures { result ≡ pick (eqb s.source source) s.hold 0 }
{
    if s.source == source {
        return s.hold;
    }
    0
}

// The record with the station in it.
#[tactic(auto, unfolding(crate::specs::Hear::entered))]
fn stored(s: Station, x: Telling) -> Station
    ensures { result ≡ entered x s }
{
    Station {
        source: x.source,
        base: x.base,
        latitude: x.latitude,
        longitude: x.longitude,
        hold: hold_of(s, x.source),
        ..s
    }
}

// The station is entered in its record.
pub fn store(reg: &mut [Station], b: Booking)
    requires { length reg.old ≡ records }
    ensures { reg.new ≡ stored_in reg.old b }
{
    let k = place_of(&b);
    reg[k] = stored(reg[k], b.telling);
}

// ---- the book

#[tactic(auto, unfolding(crate::specs::Booking::holder_of))]
fn holder_of(b: &Booking) -> u16
    ensures value { result ≡ holder_of b.now }
    ensures few { result ≤ records }
{
    place_of(b) as u16 + 1
}

// The next time of the kind from d on. Where there is none, a run is at the end of the book: the place of a `Turn` is a number, since other runs always have a next one.
fn next_from(b: &Booking, d: usize, kind: Kind) -> usize
    requires { (in_book b.now.rows ≡ true) × (d ≤ slot_times) }
    ensures { Next (kind_time kind b.now.rows) d result }
{
    next_time(b.rows, d, kind).unwrap_or(SLOT_TIMES)
}

// A place is marked for h, or freed of it. By the kind and not by a closure: the kind also says which rows the run goes through.
fn hand(book: &mut [u16], c: Counts, at: usize, h: u16, kind: Kind) -> Handing
    requires { at < length book.old }
    ensures { Puts (λ b. hand_at kind b at h) book.old c result book.new × (result.new ≤ h) }
{
    match kind {
        Kind::Mark => mark(book, c, at, h),
        Kind::Free => free(book, c, at, h),
    }
}

// One time more. It is counted if it is the station's then.
fn book_one(book: &mut [u16], t: Turn, b: &Booking, kind: Kind) -> Turn
    requires { Steps book.old t b.now }
    ensures { BooksOne kind book.old t b.now result book.new }
{
    let p = place(b.watch.present, t.at);
    let h = holder_of(b);
    let handing = hand(book, t.handing.counts, p, h, kind);
    let marks = t.marks + usize::from(book[p] == h);
    let at = next_from(b, t.at + 1, kind);
    Turn {
        handing,
        at,
        left: 0,
        marks,
    }
}

// The times that a report frees, or those that it marks.
#[derive(Clone, Copy)]
struct Times<'a> {
    booking: &'a Booking,
    kind: Kind,
}

impl<'a> Turns for Times<'a> {
    ghost stands = { λ r ys bs t zs cs. Counted r.kind r.booking.now ys bs t zs cs };

    ghost more = { λ t. ltb t.at slot_times };

    ghost left = { λ t. slot_times - t.at };

    fn is_left(&self, t: Turn) -> bool {
        t.at < SLOT_TIMES
    }

    fn step(&self, book: &mut [u16], t: Turn) -> Turn {
        book_one(book, t, self.booking, self.kind)
    }
}

// What the report frees, or what it marks.
fn book_all(reg: &mut [Station], book: &mut [u16], b: &Booking, kind: Kind) -> Turn
    requires { Booked reg.old book.old b.now }
    ensures { BooksAll kind b.now reg.old book.old result reg.new book.new }
{
    let times = Times { booking: b, kind };
    let first = next_from(b, 0, kind);
    run(
        reg,
        book,
        Turn::begin(b.watch.channel.counts, first, 0),
        &times,
    )
}

// A struct update, here and where slots pass or become ours: each changes what it has to of the watch.
fn watch_after(b: &Booking, t: Turn) -> Watch
    ensures { result ≡ with_counts b.now.watch t.handing.counts }
{
    Watch {
        channel: Channel {
            counts: t.handing.counts,
            ..b.watch.channel
        },
        ..b.watch
    }
}

// What the report frees.
pub fn free_times(reg: &mut [Station], book: &mut [u16], mut b: Booking) -> Booking
    requires { Booked reg.old book.old b }
    ensures { Ends (freed_out b reg.old book.old) result reg.new book.new }
{
    let t = book_all(reg, book, &b, Kind::Free);
    b.watch = watch_after(&b, t);
    b
}

// What it marks; the answer.
pub fn mark_times(reg: &mut [Station], book: &mut [u16], b: Booking) -> Reply
    requires { Booked reg.old book.old b }
    ensures { Ends (marked_out b reg.old book.old) result reg.new book.new }
{
    let t = book_all(reg, book, &b, Kind::Mark);
    Reply {
        watch: watch_after(&b, t),
        answer: Ok(Answer::Heard(Marks {
            source: b.telling.source,
            marks: t.marks,
        })),
    }
}

// A message that is heard: its station is entered in its record, and what it announces is freed and marked.
pub fn hear(reg: &mut [Station], book: &mut [u16], q: Hearing) -> Reply
    requires { (length reg.old ≡ records) × (length book.old ≡ slot_times) }
    ensures { Ends (out_of (heard_answer (state_of reg.old book.old q.watch) q.telling)) result reg.new book.new }
{
    let b = match noted(q, find(reg, q)) {
        Ok(b) => b,
        Err(r) => {
            return Reply {
                watch: q.watch,
                answer: Err(r),
            };
        }
    };
    store(reg, b);
    let freed = free_times(reg, book, b);
    mark_times(reg, book, freed)
}
