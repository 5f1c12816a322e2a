// What a solver can still take.
ghost use Rattle.std.specs.Prelude.{◌≡◌};
ghost use Rattle.solver.specs.Answers.{spare};

use crate::Solver;
use crate::capacity::Capacity;

// Whether so many clauses and literals more fit.
pub fn has_spare<S: Solver>(solver: &S, need: Capacity) -> bool
    ensures { result ≡ spare need (S.Solver.held solver.now) (S.Solver.capacity solver.now) }
{
    need.clauses <= solver.clause_capacity() - solver.clauses_held()
        && need.literals <= solver.literal_capacity() - solver.literals_held()
}
