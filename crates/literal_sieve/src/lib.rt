// The literal sieve: marked relays stand for their literals false at a state, and marks are closed where the clause of
// these literals is preserved.
#![tactic(auto)]

mod asking;
mod at_state;
mod literals;

pub use at_state::LiteralSieve;
