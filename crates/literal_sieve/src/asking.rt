// A question under one more clause.
ghost use Rattle.std.specs.Prelude.{◌≡◌, true, [], ◌∷◌, ◌++◌};
ghost use Rattle.solver.specs.Answers.{Answered, fits};

use solver::{Answer, Solver};

// Asks with the clause added, which is to fit; nothing is said of the answer where it does not. The solver holds what it
// held.
pub(crate) fn ask<S: Solver>(solver: &mut S, clause: &[u8], assumed: &[u8]) -> Answer
    ensures answer { fits (S.Solver.held solver.old) clause.now (S.Solver.capacity solver.old) ≡ true → Answered (S.Solver.held solver.old ++ clause.now ∷ []) assumed.now result }
    ensures held { S.Solver.held solver.new ≡ S.Solver.held solver.old }
    ensures capacity { S.Solver.capacity solver.new ≡ S.Solver.capacity solver.old }
{
    let held = solver.clauses_held();
    let _ = solver.add(clause);
    let answer = solver.query(assumed);
    solver.cut(held);
    answer
}
