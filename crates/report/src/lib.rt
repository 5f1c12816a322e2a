// What the program says of a case and of its judging, as lines of text.
#![tactic(auto)]

mod judging;
mod lines;

pub use judging::judged_lines;
pub use lines::refusal_line;
