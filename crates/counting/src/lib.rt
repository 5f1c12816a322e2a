// A solver that counts through the assignments of the variables that occur: the lowest variable slowest, false first.
#![tactic(auto)]

mod counter;

pub use counter::Counter;
use keeping::Keeping;

// The solver with the engine that counts.
pub type Counting = Keeping<Counter>;
