// Reads clauses from bytes with their faults in order, as sections of a case and as lists of candidates.
#![tactic(auto)]

mod candidates;
mod reader;
mod scope;
mod section;

pub use candidates::{MOST_CANDIDATES, read_candidates};
pub use reader::read_clauses;
pub use scope::Scope;
