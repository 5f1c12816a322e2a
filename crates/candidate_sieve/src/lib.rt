// The candidate sieve: which of the clauses of a list steps preserve together.
#![tactic(auto)]

mod candidates;
mod questions;
mod sifting;

pub use candidates::CandidateSieve;
