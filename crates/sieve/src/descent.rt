// The descent to the largest closed set.
ghost use Rattle.std.specs.Prelude.{◌≡◌, ℕ, List};
ghost use Rattle.sieve.specs.Marks.{Largest};
ghost use Rattle.sieve.specs.Sieves.{sift_fault, Descended};

use crate::sieve::Sieve;
use crate::sifting::Sifting;
use faults::WorkFault;
use solver::Solver;

// Sifts until the marks are closed: they are then the largest closed set within the marks given, of which there is just
// one. Refused is what sifting refuses, and the marks are then as they were. The solver holds what it held, also where it
// refuses.
pub fn descend<V: Sieve, S: Solver>(
    sieve: &V,
    solver: &mut S,
    marks: &mut [u8],
) -> Result<(), WorkFault>
    ensures descended { Descended (V.Sieve.places sieve.now) (V.Sieve.closed sieve.now (S.Solver.held solver.old)) (sift_fault (V.Sieve.places sieve.now) (V.Sieve.need sieve.now) (S.Solver.held solver.old) (S.Solver.capacity solver.old) marks.old) marks.old result marks.new }
    ensures only { (given M N : List ℕ) → Largest (V.Sieve.places sieve.now) (V.Sieve.closed sieve.now (S.Solver.held solver.old)) given M → Largest (V.Sieve.places sieve.now) (V.Sieve.closed sieve.now (S.Solver.held solver.old)) given N → M ≡ N }
    ensures held { S.Solver.held solver.new ≡ S.Solver.held solver.old }
    ensures capacity { S.Solver.capacity solver.new ≡ S.Solver.capacity solver.old }
{
    'sifting: loop {
        match sieve.sift(solver, marks)? {
            Sifting::Closed => break 'sifting,
            Sifting::Fewer => {}
        }
    }
    Ok(())
}
