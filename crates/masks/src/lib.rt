// Sets of literals over 128 variables, as two numbers of 128 bits: clauses and partial assignments for the solvers.
#![tactic(auto)]

mod bits;
mod literal;
mod mask;
mod question;

pub use bits::{has_variable, set_of, without, yes_of};
pub use literal::Literal;
pub use mask::{ClauseMask, Standing};
pub use question::Question;
