// The work on a case with its book: opened from bytes, carried on by turns and takings, looked at, closed and read out; and one
// call that opens and turns until the case is judged.
#![tactic(auto)]

mod account;
mod checks;
mod closed;
mod judging;
mod opening;
mod reading;
mod takings;
mod turns;
mod work;

pub use closed::Closed;
pub use judging::{Judged, judge};
pub use opening::open;
pub use work::Work;
