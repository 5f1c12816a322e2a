// Both descents for programs in C or Rust, as a static library: of the literals false at a state, and of candidates.
#![tactic(auto)]

mod calls;
mod outcome;

pub use calls::{hokhnebi_candidate_descent, hokhnebi_literal_descent};
