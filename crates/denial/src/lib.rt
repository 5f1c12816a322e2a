// Denies a clause over relays, before a step or after it: literals that are all true exactly where it is false.
#![tactic(auto)]

mod denying;
mod moment;

pub use denying::deny;
pub use moment::Moment;
