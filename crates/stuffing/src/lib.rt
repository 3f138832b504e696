// Stuffing: a 0 after every five ones in a row, put in and left out again, 32 bits at a time. Promise: what is sent is `stuffed` of the bits, and what
// is taken is `unstuffed` of them, as specs/Stuff.antt defines both bit by bit.
#![tactic(auto)]

pub mod marks;
pub mod stuff;
pub mod unstuff;
