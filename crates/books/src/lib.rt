// Books: the entries that a work keeps, the rules of these, and what a solver holds of a case and its book.
#![tactic(auto)]

mod entry;
mod loads;
mod rules;

pub use entry::{Entry, Kind};
pub use loads::{MOST_PLACES, check_room, check_spelled_room, load_book, load_start};
pub use rules::check_entries;
