// The trail.
ghost use Rattle.std.specs.Prelude.{◌≡◌, ◌≤◌, true, vec_capacity};
ghost use Rattle.trail.specs.Decisions.{distinct, Spells};

use crate::decision::Decision;
use masks::ClauseMask;

// The decisions in their order, no two on one variable, and the literals that they make true.
#[derive(Drop)]
pub struct Trail {
    pub(crate) decisions: Vec<Decision>,
    pub(crate) assigned: ClauseMask,
    // how many of the decisions have been handed out to be propagated
    pub(crate) done: usize,
    ghost spelled: { Spells assigned decisions.items },
    ghost once: { distinct decisions.items ≡ true },
    ghost space: { 128 ≤ vec_capacity decisions },
}
