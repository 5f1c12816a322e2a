// The search of the propagating solver: it propagates, learns from conflicts and jumps back, and chooses the lowest open
// variable, false first, until all is true or nothing can be.
#![tactic(auto)]

mod engine;
mod learned;
mod learning;
mod links;
mod progress;
mod propagation;
mod search;
mod searching;
mod watches;

pub use search::Search;
