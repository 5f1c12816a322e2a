// The clauses that a solver holds, within two capacities, each with its set of literals. Both solvers keep theirs here.
#![tactic(auto)]

mod storage;

pub use storage::Storage;
