// Takes from a list of candidates those that are inductive together.
#![tactic(auto)]

mod taking;

pub use taking::choose;
