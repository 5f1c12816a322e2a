// The cache of learned clauses.
ghost use Rattle.std.specs.Prelude.{◌≡◌, ◌*◌, ◌≤◌, vec_len, vec_capacity};
ghost use Rattle.search.specs.Watched.{room, numbers, pairs};
ghost use Rattle.search.specs.declared.learned.TheConstants.{MOST};

use crate::watches::Watches;
use masks::ClauseMask;

// How many of them are kept at most.
pub(crate) const MOST: usize = 1024;

// The clauses that a search has learned, and what is watched of them: two literals of each. It may forget.
#[derive(Drop)]
pub struct Learned {
    pub(crate) clauses: Vec<ClauseMask>,
    pub(crate) watches: Watches,
    ghost space: { MOST ≤ vec_capacity clauses },
    ghost room: { MOST * 2 ≤ room watches },
    ghost watched: { numbers watches ≡ pairs (vec_len clauses) },
}
