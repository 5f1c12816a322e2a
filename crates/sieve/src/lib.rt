// Sieves: families of sets of places that are closed under union, how marks are sifted towards a closed set, and the
// descent to the largest one within the marks given, written once for every sieve.
#![tactic(auto)]

mod checks;
mod descent;
mod sieve;
mod sifting;

pub use checks::check;
pub use descent::descend;
pub use sieve::Sieve;
pub use sifting::Sifting;
