// Choosing behind a C call, so that it can be timed and held against the second program. The board does not have it. Promise: the answer packs what the public call
// `choose` answers, and register and book are left as that leaves them (specs/Testface.antt).
#![tactic(auto)]

ghost use Rattle.std.specs.Prelude.{◌≡◌, ◌<◌, get_or};
ghost use Rattle.walks.specs.Out.{Ends};
ghost use Rattle.testface.specs.Testface.{word_at, place_at, watch_in, ask_in, slot_packed, packed, chosen_out};

use book::{Channel, Counts, Watch};
use calls::{Ask, call, choose};
use choosing::Wanted;
use message::signs::signed;
use plan::Plan;
use register::{Answer, Reply, Slot};
use ship::{Ship, Station};

// ---- what is asked: now, the free count, the own tally, rate and start of the plan, k, the time-out, in two bytes each, the low one first; then our latitude and
// longitude, in four. A byte that is not there counts as 0.

fn byte(bytes: &[u8], at: usize) -> u8
    ensures { result ≡ get_or bytes.now at 0 }
{
    bytes.get(at).copied().unwrap_or(0)
}

#[tactic(auto, unfolding(crate::specs::Testface::word_at))]
fn word(bytes: &[u8], at: usize) -> u16
    requires { at < 22 }
    ensures { result ≡ word_at bytes.now at }
{
    u16::from_le_bytes([byte(bytes, at), byte(bytes, at + 1)])
}

// A latitude or a longitude: all that can be known have 28 bits. By hand, since a byte that is not there counts as 0 and the library takes whole types.
fn position(bytes: &[u8], at: usize) -> i32
    requires { at < 20 }
    ensures { result ≡ place_at bytes.now at }
{
    let low = u32::from(word(bytes, at));
    let high = u32::from(word(bytes, at + 2));
    signed(low + 65536 * (high % 4096), 28)
}

#[tactic(auto, unfolding(crate::specs::Testface::watch_in))]
fn watch_in(bytes: &[u8]) -> Watch
    ensures { result ≡ watch_in bytes.now }
{
    Watch {
        present: usize::from(word(bytes, 0)),
        channel: Channel {
            counts: Counts {
                free: word(bytes, 2),
                own: word(bytes, 4),
            },
            plan: Plan {
                rate: word(bytes, 6),
                start: word(bytes, 8),
            },
        },
        ship: Ship {
            source: 0,
            latitude: position(bytes, 14),
            longitude: position(bytes, 18),
        },
    }
}

fn ask_in(bytes: &[u8], draw: u16) -> Ask
    ensures { result ≡ ask_in bytes.now draw }
{
    choose(
        watch_in(bytes),
        Wanted {
            k: word(bytes, 10),
            timeout: word(bytes, 12),
            draw,
        },
    )
}

// ---- what is answered

// Distance, slot number, candidates, in 16 bits each, and marks replaced in 8; 8 bits are left for the number of a refusal.
#[tactic(auto, unfolding(crate::specs::Testface::slot_packed))]
fn pack(s: Slot) -> u64
    ensures { result ≡ slot_packed s }
{
    let ahead = (s.distance % 65536) as u64;
    let slot = (s.slot % 65536) as u64;
    let candidates = (s.candidates % 65536) as u64;
    let replaced = (s.replaced % 256) as u64;
    (((ahead * 65536 + slot) * 65536 + candidates) * 256 + replaced) * 256
}

#[tactic(auto, unfolding(crate::specs::Testface::packed))]
fn packed(r: Reply) -> u64
    ensures { result ≡ packed r.answer }
{
    match r.answer {
        Ok(Answer::Chosen(s)) => pack(s),
        Ok(_) => 0,
        Err(n) => u64::from(u32::from(n)),
    }
}

// Chooses in a register and a book, for what the bytes ask and the number drawn.
#[unsafe(no_mangle)]
pub extern "C" fn qs_test_choose(
    reg: &mut [Station],
    book: &mut [u16],
    bytes: &[u8],
    draw: u16,
) -> u64
    ensures { Ends (chosen_out reg.old book.old bytes.now draw) result reg.new book.new }
{
    packed(call(reg, book, bytes, ask_in(bytes, draw)))
}
