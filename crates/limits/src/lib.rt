// The limits of document 01, each once and by name; one that follows from others is computed from them. Promise: none of its own, since there is no
// function here. specs/Limits.antt has the same limits for definitions, and every function that uses one is proved against those. They are `usize`; a crate that
// counts in 16 bits names such a limit once more, in its own type, since a name has one type.
#![tactic(auto)]

// ---- the slot book

// The slots of a frame, which is one minute.
pub const FRAME: usize = 2250;

// The frames that the book reaches ahead, and its slot times.
pub const FRAMES: usize = 9;

pub const SLOT_TIMES: usize = FRAMES * FRAME;

// The station records of a register.
pub const RECORDS: usize = 255;

// ---- the plan and the choice

// The most reports in a frame.
pub const MOST_RATE: usize = 30;

// A window of one report a frame reaches a tenth of a frame to each side: no window is wider.
pub const TENTH: usize = FRAME / 10;

pub const WIDEST: usize = 2 * TENTH + 1;

// A slot of ours is chosen for so many frames after it, at the least and at the most. No state announces more.
pub const LEAST_TIME_OUT: usize = 3;

pub const MOST_TIME_OUT: usize = 7;

// A station whose mark was replaced is held off for so many slots.
pub const HOLD_OFF: usize = FRAME;

// ---- packets

// The most bytes of a payload. All other limits of packets follow from it.
pub const PAYLOAD: usize = 21;

// Flags and check, in bits.
pub const FLAG_BITS: usize = 8;

pub const CHECK_BITS: usize = 16;

// The bits of payload and check before any 0 is put in, at the least and at the most.
pub const LEAST_CHECKED: usize = 8 + CHECK_BITS;

pub const MOST_CHECKED: usize = 8 * PAYLOAD + CHECK_BITS;

// The bits between the flags at the most: a 0 is put in after every five.
pub const MOST_BODY: usize = MOST_CHECKED + MOST_CHECKED / 5;

// The bits of a packet, at the least and at the most.
pub const LEAST_PACKET: usize = FLAG_BITS + LEAST_CHECKED + FLAG_BITS;

pub const MOST_PACKET: usize = FLAG_BITS + MOST_BODY + FLAG_BITS;

// ---- messages

// The bytes of a message.
pub const MESSAGE: usize = 21;

// The places of the list of numbers that a message becomes for a C program: the longest is a base station's with hour and minute.
pub const LIST_PLACES: usize = 21;

// ---- lines

// The digits of a number of 64 bits at the most; the room of a number with the space before it; the room of a line: a word, four numbers, an end.
pub const DIGITS: usize = 20;

pub const NUMBER_ROOM: usize = DIGITS + 1;

pub const LINE_ROOM: usize = 4 * NUMBER_ROOM + 12;
