// What a sieve is.
ghost use Rattle.std.specs.Prelude.{◌≡◌, ℕ, ◌≤◌, List};
ghost use Rattle.solver.specs.declared.capacity.Capacity.{Capacity};
ghost use Rattle.sieve.specs.Marks.{Marks, none, union};
ghost use Rattle.sieve.specs.Sieves.{sift_fault, Sifted};

use crate::sifting::Sifting;
use faults::WorkFault;
use solver::{Capacity, Solver};

// What an implementer shows. A sieve means its places and a family of closed sets of them, which depends on the clauses
// that its solver holds. A set is given by marks, a byte for each place: 1 where it is marked, else 0.
pub trait Sieve {
    // The most places that a sieve of this kind has.
    const MOST: usize;

    // The same number, for contracts.
    ghost limit: { ℕ };

    // How many places there are.
    ghost places: { Self → ℕ };

    // Which marks are closed where a solver holds these clauses.
    ghost closed: { Self → List (List ℕ) → List ℕ → Type 0 };

    // The spare capacity of a solver that sifting needs.
    ghost need: { Self → Capacity };

    // The constant: contracts cannot cite it, and cite what this answers.
    fn limit() -> usize
        ensures { result ≡ limit };

    // How many places there are, never more than the most.
    fn places(&self) -> usize
        ensures value { result ≡ places self.now }
        ensures bound { result ≤ limit };

    // The spare capacity that sifting needs.
    fn need(&self) -> Capacity
        ensures { result ≡ need self.now };

    // Says that the marks are closed, and leaves them, or unmarks a place or more, and only such as lie in no closed part of
    // the marks. Refused are first a wrong number of marks or a mark that is neither 0 nor 1, then too little spare
    // capacity; the marks are then as they were. The solver holds what it held, also where it refuses.
    fn sift<S: Solver>(&self, solver: &mut S, marks: &mut [u8]) -> Result<Sifting, WorkFault>
        ensures sifted { Sifted (places self.now) (closed self.now (S.Solver.held solver.old)) (sift_fault (places self.now) (need self.now) (S.Solver.held solver.old) (S.Solver.capacity solver.old) marks.old) marks.old result marks.new }
        ensures held { S.Solver.held solver.new ≡ S.Solver.held solver.old }
        ensures capacity { S.Solver.capacity solver.new ≡ S.Solver.capacity solver.old };

    // The empty set is closed, and so is the union of two closed sets.
    ghost none_closed: { (s : Self) (held : List (List ℕ)) → closed s held (none (places s)) };

    ghost union_closed: { (s : Self) (held : List (List ℕ)) (M N : List ℕ) → Marks (places s) M → Marks (places s) N → closed s held M → closed s held N → closed s held (union M N) };
}
