// Judging a case: opening and turning until a verdict is given or a turn is refused.
ghost use Rattle.std.specs.Prelude.{◌≡◌, length, Err, MatchResult};
ghost use Rattle.histories.specs.Calls.{OpenedFrom};
ghost use Rattle.histories.specs.Promises.{Judging, JudgingPromises};

use crate::closed::Closed;
use crate::opening::open;
use books::Entry;
use faults::WorkFault;
use solver::Solver;
use std::alloc::Global;

// What judging a case gives.
pub struct Judged {
    // The work, closed after its last turn.
    pub closed: Closed,
    // Why that turn was refused, where no verdict was given.
    pub refused: Option<WorkFault>,
}

// Opens a work with all the places of the book, and takes turns until a verdict is given or one is refused. Refused is what
// opening refuses; book and solver are then as they were.
pub fn judge<S: Solver>(
    heap: Global,
    bytes: &[u8],
    solver: &mut S,
    book: &mut [Entry],
) -> Result<Judged, WorkFault>
    ensures judged { MatchResult result (λ j. Judging (S.Solver.capacity solver.old) bytes.now book.old (S.Solver.held solver.old) j.refused (record { work = j.closed; book = book.new; held = S.Solver.held solver.new }) × JudgingPromises bytes.now j.refused j.closed book.new) (λ f. OpenedFrom (S.Solver.capacity solver.old) bytes.now (length book.old) (S.Solver.held solver.old) (Err f) (S.Solver.held solver.new) × (book.new ≡ book.old)) }
    ensures capacity { S.Solver.capacity solver.new ≡ S.Solver.capacity solver.old }
{
    let mut work = open(heap, bytes, solver, book.len())?;
    while !work.account.is_decided() {
        if let Err(fault) = work.turn(solver, book) {
            return Ok(Judged {
                closed: work.close(),
                refused: Some(fault),
            });
        }
    }
    Ok(Judged {
        closed: work.close(),
        refused: None,
    })
}
