// The judging of a case for programs in C or Rust, as a static library.
#![tactic(auto)]

mod calls;
mod told;

pub use calls::hokhnebi_judge;
pub use told::JudgeTold;
