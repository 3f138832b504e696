// The numbers given back: what can be unfit about an input, and the paper's number for each. Every refusal of every call is one of
// these, and every promise about numbers goes through `number_of`.
#![tactic(auto)]

ghost use Rattle.std.specs.Prelude.{◌≡◌};
ghost use Rattle.numbers.specs.Numbers.{number_of};

#[derive(Clone, Copy, Debug, PartialEq, Eq)]
pub enum Refusal {
    // a bit byte is neither 0 nor 1
    NotBits,
    // payload not 1 to 21 bytes; packet not 40 to 236 bits
    BadLength,
    // output lent under 236 (packet), under 21 (payload, message)
    NoRoom,
    // first or last eight bits are no flag
    NoFlag,
    // between the flags, six ones in a row, or five ones at the end
    BadStuffing,
    // unstuffed bits are no 3 to 23 whole bytes
    NotWhole,
    // check differs
    BadCheck,
    // message not 21 bytes
    MessageLength,
    // id not 1 to 4
    UnknownId,
    // a field to be written is out of its width
    TooWide,
    // book or register of another length
    OtherLength,
    // source 0, above 999,999,999, or (hearing) our own
    BadSource,
    // heard message has repeat above 0
    Repeated,
    // new source, and no record with tally 0
    NoRecord,
    // number out of its stated range; own position neither known nor the unknown one
    OutOfRange,
    // no plan set, or one with r or s out of range
    NoPlan,
    // the window meant has an own mark
    WindowTaken,
    // no candidate
    NoCandidate,
    // draw sent back
    DrawBack,
    // a mark would lie beyond the book
    BeyondBook,
    // report asked, now is not own
    NotOwn,
    // log ends inside a record
    CutRecord,
    // length under 2, kind unknown, or length wrong for its kind
    UnknownRecord,
}

impl From<Refusal> for u32 {
    ghost from_gives = { λ r n. n ≡ number_of r };

    fn from(refusal: Refusal) -> u32 {
        match refusal {
            Refusal::NotBits => 10,
            Refusal::BadLength => 11,
            Refusal::NoRoom => 12,
            Refusal::NoFlag => 13,
            Refusal::BadStuffing => 14,
            Refusal::NotWhole => 15,
            Refusal::BadCheck => 16,
            Refusal::MessageLength => 17,
            Refusal::UnknownId => 18,
            Refusal::TooWide => 19,
            Refusal::OtherLength => 20,
            Refusal::BadSource => 21,
            Refusal::Repeated => 22,
            Refusal::NoRecord => 23,
            Refusal::OutOfRange => 30,
            Refusal::NoPlan => 31,
            Refusal::WindowTaken => 32,
            Refusal::NoCandidate => 33,
            Refusal::DrawBack => 34,
            Refusal::BeyondBook => 35,
            Refusal::NotOwn => 36,
            Refusal::CutRecord => 40,
            Refusal::UnknownRecord => 41,
        }
    }
}
