// The layout of case bytes: a header and three sections of clauses. Bytes are looked through for their first fault; those
// without one are exactly those that spell an admitted system.
#![tactic(auto)]

mod header;
mod sections;

pub use header::{HEADER, read_field};
pub use sections::check_case;
