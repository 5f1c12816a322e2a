// Both solvers for programs in C or Rust, as a static library: one list of clauses, and questions about it.
#![tactic(auto)]

mod asking;
mod fault;
mod reply;

pub use asking::{hokhnebi_counting, hokhnebi_propagating};
pub use reply::Reply;
