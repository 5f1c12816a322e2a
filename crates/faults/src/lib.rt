// What is refused, by layers: a fault of one clause (layer 1) travels whole inside the fault of a case (layer 2), and
// both inside a fault of the work above (layer 3). Every fault tells its layer, its number and its place, a refusal.
#![tactic(auto)]

mod case;
mod clause;
mod fault;
mod refusal;
mod work;

pub use case::{CaseFault, ListName};
pub use clause::ClauseFault;
pub use fault::Fault;
pub use refusal::Refusal;
pub use work::WorkFault;
