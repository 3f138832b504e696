// A message as a list of numbers, which is how the C face hands it over: its fields in the order of document 01, then the state taken
// apart. Promises: the list is `numbers_of` the message, and what a list says is `message_in` it (specs/Listing.antt); a message that has
// its widths comes back from its list (specs/Promises.antt). The list is lent by a C program and can be longer than its 21 places, so it is a slice, and no array.
#![tactic(auto)]

pub mod getting;
pub mod putting;

ghost use Rattle.std.specs.Prelude.{◌≡◌, ◌≤◌, length};
ghost use Rattle.limits.specs.Limits.{list_places};
ghost use Rattle.listing.specs.Listing.{message_in};

use getting::{base_in, incremental_in, organised_in, plain_at, report_in};
use message::Message;

// The message that a list of numbers says. A slice, and no array of 21: a longer list is one too.
pub fn message_in(list: &[i32]) -> Message
    requires { list_places ≤ length list.now }
    ensures { result ≡ message_in list.now }
{
    match plain_at(list, 0) {
        1 => Message::One(report_in(list), organised_in(list, 15)),
        2 => Message::Two(report_in(list), organised_in(list, 15)),
        3 => Message::Three(report_in(list), incremental_in(list)),
        4 => Message::Four(base_in(list), organised_in(list, 16)),
        _ => Message::Other,
    }
}
