// Questions about a system and its book, put to a solver: where a clause over relays is false, in an initial state or after
// a step; and whether a state is initial.
#![tactic(auto)]

mod initial;
mod steps;
mod transition;

pub use initial::{initial_against, is_initial};
pub use steps::step_against;
pub use transition::Transition;
