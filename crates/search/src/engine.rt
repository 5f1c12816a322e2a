// The search as the engine of a solver.
ghost use Rattle.std.specs.Prelude.{◌==◌, ◌^◌, ◌*◌, ◌-◌, min};
ghost use Rattle.search.specs.Watched.{room};

use crate::search::Search;
use keeping::Engine;
use masks::Question;
use solver::{Answer, Capacity};
use std::alloc::{AllocError, Global};

impl Engine for Search {
    // room for two links of each clause
    ghost prepared = { λ s capacity. room s.watches == min (capacity.clauses * 2) (2 ^ 64 - 1) };

    fn prepare(heap: Global, capacity: Capacity) -> Result<Search, AllocError> {
        Search::new(heap, capacity.clauses)
    }

    fn answer(&mut self, question: Question) -> Answer {
        Search::answer(self, question)
    }
}
