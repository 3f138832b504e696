// The numbers of a message, straight from its bytes into a lent list. Promise: they are `numbers_of` the message (specs/Listing.antt).
ghost use Rattle.std.specs.Prelude.{◌≡◌, true, [], ◌∷◌, ◌+◌, ◌≤◌, ◌<◌, pos, length};
ghost use Rattle.std.proofs.lemmas.List.Edits.{sets};
ghost use Rattle.laws.specs.Tests.{between};
ghost use Rattle.limits.specs.Limits.{message_bytes, list_places};
ghost use Rattle.bits.specs.Row.{all_fit};
ghost use Rattle.message.specs.Message.{id_in, message_of};
ghost use Rattle.message.specs.Sheet.{clock_from, organised_from};
ghost use Rattle.message.specs.State.{incremental_row};
ghost use Rattle.message.specs.declared.state.SubMessage.TheVariants.{Time};
ghost use Rattle.listing.specs.Listing.{report_numbers, base_numbers, sub_numbers, organised_numbers, incremental_numbers, Lists, Small, SmallReport, SmallBase};

use message::reading::{base_in, report_in};
use message::state::{Incremental, State, clock_in, organised_parts, state_in};
use message::{Base, Report};

// A report, and below a base station's: other fields in another order. Number by number: put by `copy_from_slice` as a row, they would first be laid on the
// stack, and reading would take a quarter longer.
fn put_report(id: u32, r: Report, out: &mut [i32])
    requires { (list_places ≤ length out.old) × SmallReport id r }
    ensures { out.new ≡ sets out.old 0 (report_numbers id r) }
{
    out[0] = id as i32;
    out[1] = r.repeat as i32;
    out[2] = r.source as i32;
    out[3] = r.status as i32;
    out[4] = r.turn;
    out[5] = r.speed as i32;
    out[6] = r.accuracy as i32;
    out[7] = r.longitude;
    out[8] = r.latitude;
    out[9] = r.course as i32;
    out[10] = r.heading as i32;
    out[11] = r.second as i32;
    out[12] = r.manoeuvre as i32;
    out[13] = r.spare as i32;
    out[14] = r.raim as i32;
}

fn put_base(b: Base, out: &mut [i32])
    requires { (list_places ≤ length out.old) × SmallBase b }
    ensures { out.new ≡ sets out.old 0 (base_numbers b) }
{
    out[0] = 4;
    out[1] = b.repeat as i32;
    out[2] = b.source as i32;
    out[3] = b.year as i32;
    out[4] = b.month as i32;
    out[5] = b.day as i32;
    out[6] = b.hour as i32;
    out[7] = b.minute as i32;
    out[8] = b.second as i32;
    out[9] = b.accuracy as i32;
    out[10] = b.longitude;
    out[11] = b.latitude;
    out[12] = b.fix as i32;
    out[13] = b.control as i32;
    out[14] = b.spare as i32;
    out[15] = b.raim as i32;
}

// The clock of time-out 1, of 14 bits.
fn put_clock(v: u32, out: &mut [i32], at: usize) -> u32
    requires { (at < 2147483648) × (at + 4 ≤ length out.old) }
    ensures { (result ≡ at + 4) × (out.new ≡ sets out.old at (sub_numbers (Time (clock_from v)))) }
{
    let c = clock_in(v);
    out[at] = 1;
    out[at + 1] = c.hour as i32;
    out[at + 2] = c.minute as i32;
    out[at + 3] = c.unused as i32;
    (at + 4) as u32
}

// The self-organised state of 19 bits: how many numbers stand in the list then.
fn put_organised(v: u32, out: &mut [i32], at: usize) -> u32
    requires { (at < 2147483647) × (at + 5 ≤ length out.old) }
    ensures { (result ≡ at + length (organised_numbers (organised_from v))) × (out.new ≡ sets out.old at (organised_numbers (organised_from v))) }
{
    let f = organised_parts(v);
    out[at] = f.a as i32;
    if f.b == 1 {
        return put_clock(f.c, out, at + 1);
    }
    out[at + 1] = f.b as i32;
    out[at + 2] = f.c as i32;
    (at + 3) as u32
}

fn put_incremental(s: Incremental, out: &mut [i32]) -> u32
    requires { (list_places ≤ length out.old) × Small s.sync s.increment × Small s.code s.keep }
    ensures { (result ≡ 15 + length (incremental_numbers s)) × (out.new ≡ sets out.old 15 (incremental_numbers s)) }
{
    out[15] = s.sync as i32;
    out[16] = s.increment as i32;
    out[17] = s.code as i32;
    out[18] = s.keep as i32;
    19
}

fn list_base(bytes: &[u8], out: &mut [i32]) -> u32
    requires { (length bytes.now ≡ message_bytes) × (id_in bytes.now ≡ 4) × (list_places ≤ length out.old) }
    ensures { Lists (message_of bytes.now) out.old result out.new }
{
    let x = base_in(bytes);
    put_base(x.base, out);
    put_organised(x.state, out, 16)
}

// The numbers of the message in 21 bytes, whose id is known, in the first places of out: how many. It goes straight from the bytes to the list; with
// the message made between them it took three times as long. Message 3 alone carries the incremental state.
pub fn list(bytes: &[u8], id: u32, out: &mut [i32]) -> u32
    requires { (length bytes.now ≡ message_bytes) × (id ≡ id_in bytes.now) × (between 1 4 (id_in bytes.now) ≡ true) × (list_places ≤ length out.old) }
    ensures { Lists (message_of bytes.now) out.old result out.new }
{
    if id == 4 {
        return list_base(bytes, out);
    }
    let x = report_in(bytes);
    put_report(id, x.report, out);
    let state = state_in(id, x.state);
    let State::Incremental(s) = state else {
        return put_organised(x.state, out, 15);
    };
    put_incremental(s, out)
}
