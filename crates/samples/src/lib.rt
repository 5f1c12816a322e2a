// What the trials share: small cases as bytes, lists of candidates, refusals as tuples, and room for solvers.
#![tactic(auto)]

mod candidates;
mod refusals;
mod systems;

pub use candidates::off_candidates;
pub use refusals::{ACCEPTED, NO_ROOM, Refused, Said, held, refused, said};
pub use systems::{
    ANY_START, MOST_RELAYS, OFF_START, OPEN, SWAP, THREE, TOO_MANY_RELAYS, TWO, WIDE,
};
