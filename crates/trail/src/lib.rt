// The table of decisions of a search: what it assigns, what forced each entry, and where it was jumped back to.
#![tactic(auto)]

mod decision;
mod trail;
mod trailing;

pub use decision::{Decision, Forcing};
pub use trail::Trail;
