// Learns from a state: the literals false there, cut down to a clause that steps preserve and trimmed, where that clause is
// true in every initial state.
#![tactic(auto)]

mod learning;

pub use learning::learn;
