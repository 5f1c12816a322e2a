// What tells one solver from another.
ghost use Rattle.std.specs.Prelude.{◌≡◌, Bool, true, IfOk};
ghost use Rattle.solver.specs.declared.capacity.Capacity.{Capacity};
ghost use Rattle.masks.specs.Questions.{Decided};

use masks::Question;
use solver::{Answer, Capacity};
use std::alloc::{AllocError, Global};

// Answers questions over memory that is made once.
pub trait Engine: Sized + Drop {
    // It has all the memory that it will use, for so many held clauses and literals.
    ghost prepared: { Self → Capacity → Bool };

    // Reserves all the memory that it will use, for so many held clauses and literals.
    fn prepare(heap: Global, capacity: Capacity) -> Result<Self, AllocError>
        ensures { IfOk result (λ engine. prepared engine capacity ≡ true) };

    // The answer, right for every list of held clauses that has these sets of literals.
    fn answer(&mut self, question: Question) -> Answer
        ensures answer { Decided question.entry result }
        ensures prepared { (capacity : Capacity) → prepared self.new capacity ≡ prepared self.old capacity };
}
