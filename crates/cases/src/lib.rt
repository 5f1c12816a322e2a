// Cases: bytes that spell a transition system, read and kept. A case answers its relays, inputs, lists and clauses.
#![tactic(auto)]

mod answers;
mod case;
mod reading;

pub use answers::Clause;
pub use case::Case;
