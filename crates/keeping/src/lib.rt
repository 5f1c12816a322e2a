// A solver made of a storage and an engine that answers: all that one solver shares with another.
#![tactic(auto)]

mod engine;
mod keeping;

pub use engine::Engine;
pub use keeping::Keeping;
