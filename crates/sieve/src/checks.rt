// What is checked before a sifting: the marks, then the spare capacity of the solver.
ghost use Rattle.std.specs.Prelude.{◌≡◌};
ghost use Rattle.faults.specs.Firsts.{unmet, unless};
ghost use Rattle.faults.specs.declared.work.WorkFault.TheVariants.{NoCapacity};
ghost use Rattle.solver.specs.Answers.{spare};
ghost use Rattle.sieve.specs.Sieves.{marks_fault, sift_fault};

use faults::WorkFault;
use solver::{Capacity, Solver, has_spare};

fn check_marks(places: usize, marks: &[u8]) -> Result<(), WorkFault>
    ensures { result ≡ unless (marks_fault places marks.now) tt }
{
    if marks.len() != places {
        return Err(WorkFault::Marks(0));
    }
    for (i, mark) in marks.iter().enumerate() {
        if *mark > 1 {
            return Err(WorkFault::Marks(i));
        }
    }
    Ok(())
}

fn check_spare<S: Solver>(need: Capacity, solver: &S) -> Result<(), WorkFault>
    ensures { result ≡ unless (unmet (spare need (S.Solver.held solver.now) (S.Solver.capacity solver.now)) NoCapacity) tt }
{
    if !has_spare(solver, need) {
        return Err(WorkFault::NoCapacity);
    }
    Ok(())
}

// Whether marks for so many places can be sifted where that spare capacity is needed: first the marks, then the solver.
pub fn check<S: Solver>(
    places: usize,
    need: Capacity,
    solver: &S,
    marks: &[u8],
) -> Result<(), WorkFault>
    ensures { result ≡ unless (sift_fault places need (S.Solver.held solver.now) (S.Solver.capacity solver.now) marks.now) tt }
{
    check_marks(places, marks)?;
    check_spare(need, solver)
}
