// Own marks: the slot that was picked and its later frames become ours, and each station whose mark is replaced is held off. Promise: as specs/Owning.antt says.
ghost use Rattle.std.specs.Prelude.{◌≡◌, ◌+◌, ◌<◌, ltb, IfOk};
ghost use Rattle.limits.specs.Limits.{most_time_out};
ghost use Rattle.walks.specs.Out.{Ends};
ghost use Rattle.choosing.specs.Owning.{owning_at, owning_of, Steps, OwnsOne, Upto, reply_of, Owns, owned_out, chosen_out};

use crate::Query;
use book::{Channel, NONE, OWN, Watch, place, put};
use candidates::Picked;
use limits::{FRAME, SLOT_TIMES};
use numbers::Refusal;
use register::{Answer, Reply, Slot, Turn, Turns, run};
use ship::Station;

// What is to become ours: a slot, for which it is not known yet how many marks it replaces (0 stands there until `replied` puts it in), in so many frames.
#[derive(Clone, Copy)]
pub struct Owning {
    pub watch: Watch,
    pub slot: Slot,
    pub frames: usize,
}

// What comes of a slot that is picked: 35 where a mark of it would lie beyond the book.
#[tactic(auto, unfolding(crate::specs::Owning::owning_at))]
fn owning_at(q: Query, p: Picked) -> Result<Owning, Refusal>
    requires { q.window.timeout < most_time_out + 1 }
    ensures { result ≡ owning_at q p }
{
    let m = q.window.timeout;
    if p.distance >= SLOT_TIMES - FRAME * m {
        return Err(Refusal::BeyondBook);
    }
    Ok(Owning {
        watch: q.watch,
        slot: Slot {
            distance: p.distance,
            slot: place(q.watch.present, p.distance) % FRAME,
            candidates: p.candidates,
            replaced: 0,
        },
        frames: m + 1,
    })
}

// What comes of the draw: 32, 33, 34 as they are, 35.
pub fn outcome(q: Query, p: Result<Picked, Refusal>) -> Result<Owning, Refusal>
    requires { q.window.timeout < most_time_out + 1 }
    ensures { result ≡ owning_of q p }
{
    owning_at(q, p?)
}

// Its frames, one at each turn.
impl Turns for Owning {
    ghost stands = { λ o ys bs t zs cs. Upto o ys bs t zs cs };

    ghost more = { λ t. ltb 0 t.left };

    ghost left = { λ t. t.left };

    fn is_left(&self, t: Turn) -> bool {
        t.left > 0
    }

    fn step(&self, book: &mut [u16], t: Turn) -> Turn {
        own_one(book, t, *self)
    }
}

// The time becomes ours, and the next one is a frame later.
fn own_one(book: &mut [u16], t: Turn, o: Owning) -> Turn
    requires { Steps book.old t }
    ensures { OwnsOne book.old t o result book.new }
{
    let p = place(o.watch.present, t.at);
    let handing = put(book, t.handing.counts, p, OWN);
    Turn {
        handing,
        at: t.at + FRAME,
        left: t.left - 1,
        marks: t.marks + usize::from(handing.old != NONE),
    }
}

fn replied(o: Owning, t: Turn) -> Reply
    ensures { result ≡ reply_of o t }
{
    Reply {
        watch: Watch {
            channel: Channel {
                counts: t.handing.counts,
                ..o.watch.channel
            },
            ..o.watch
        },
        answer: Ok(Answer::Chosen(Slot {
            replaced: t.marks,
            ..o.slot
        })),
    }
}

// A slot and its later frames become ours.
fn own_all(reg: &mut [Station], book: &mut [u16], o: Owning) -> Reply
    requires { Owns reg.old book.old o }
    ensures { Ends (owned_out o reg.old book.old) result reg.new book.new }
{
    let t = run(
        reg,
        book,
        Turn::begin(o.watch.channel.counts, o.slot.distance, o.frames),
        &o,
    );
    replied(o, t)
}

// What came of the draw becomes ours, if it was not refused; the answer.
pub fn own_frames(
    reg: &mut [Station],
    book: &mut [u16],
    watch: Watch,
    drawn: Result<Owning, Refusal>,
) -> Reply
    requires { IfOk drawn (λ o. Owns reg.old book.old o) }
    ensures { Ends (chosen_out watch drawn reg.old book.old) result reg.new book.new }
{
    match drawn {
        Ok(o) => own_all(reg, book, o),
        Err(r) => Reply {
            watch,
            answer: Err(r),
        },
    }
}
