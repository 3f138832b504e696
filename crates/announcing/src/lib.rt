// What a report announces, as rows of slot times. Promises: a state becomes the rows that specs/Announce.antt says in the paper's words; `within` says whether they
// all lie in the book; `next_time` goes from one of their times to the next (specs/Next.antt). What they do to the book is defined in specs/Rows.antt.
#![tactic(auto)]

pub mod rows;
pub mod times;
