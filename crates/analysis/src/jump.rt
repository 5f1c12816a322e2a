// Jumps back along the trail.
use masks::{ClauseMask, Literal};

// Where to jump back to, and what is learned.
#[derive(Clone, Copy, PartialEq, Eq, Debug)]
pub struct Jump {
    // the entry of the trail that changes
    pub to: usize,
    // what is forced there
    pub literal: Literal,
    // what forces it
    pub clause: ClauseMask,
}
