// Clauses that lie in bytes one after another, each as one length byte and then its literals: lists of them, which give
// their clauses in order as parts of the bytes.
#![tactic(auto)]

mod list;

pub use list::ClauseList;
