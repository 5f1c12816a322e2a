// What a conflict teaches: resolution back along the trail, to the first clause that forces a variable at an earlier choice.
#![tactic(auto)]

mod analyzing;
mod jump;

pub use analyzing::analyze;
pub use jump::Jump;
