// Seeks a counterexample to induction: a step from a state that is consistent with the book to the first target that has
// one. Targets are the safety clauses, made false, and then the states of the subgoals.
#![tactic(auto)]

mod counterexample;
mod seeking;

pub use counterexample::Counterexample;
pub use seeking::find_counterexample;
