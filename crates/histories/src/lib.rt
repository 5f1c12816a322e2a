// What any list of calls on a work and its book leaves: the verdict, and the laws that calls keep.
#![tactic(auto)]

mod theorems;
mod verdict;

pub use theorems::laws;
pub use verdict::{Look, Verdict};
