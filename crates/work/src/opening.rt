// Opening a work.
ghost use Rattle.std.specs.Prelude.{◌≡◌, true, []};
ghost use Rattle.books.specs.Books.{enough};
ghost use Rattle.work.specs.Opening.{BrokenAtStart};
ghost use Rattle.histories.specs.Calls.{OpenedFrom};
ghost use Rattle.histories.specs.Promises.{OpeningPromises};

use crate::account::Account;
use crate::work::Work;
use books::{check_spelled_room, load_start};
use cases::Case;
use faults::{ListName, WorkFault};
use histories::Verdict;
use layout::check_case;
use questions::initial_against;
use solver::Solver;
use std::alloc::Global;

// Opens a work on the case that the bytes spell, with a book of so many places. Refused is what reading the case refuses, then
// too many places, then a solver with too little room; memory for the case is asked for where nothing is refused. Where an initial
// state is broken the work is opened with that verdict. The solver then holds nothing, and where it is refused what it held.
pub fn open<S: Solver>(
    heap: Global,
    bytes: &[u8],
    solver: &mut S,
    places: usize,
) -> Result<Work, WorkFault>
    ensures opened { OpenedFrom (S.Solver.capacity solver.old) bytes.now places (S.Solver.held solver.old) result (S.Solver.held solver.new) }
    ensures promises { OpeningPromises bytes.now result }
    ensures capacity { S.Solver.capacity solver.new ≡ S.Solver.capacity solver.old }
{
    check_case(bytes)?;
    check_spelled_room(solver, bytes, places)?;
    let case = Case::read(heap, bytes)?;
    let verdict = match broken_at_start(solver, &case) {
        Some(state) => Verdict::BrokenAt(state),
        None => Verdict::Undecided,
    };
    Ok(Work {
        account: Account {
            case,
            places,
            used: 0,
            verdict,
        },
    })
}

// An initial state that is broken, if there is one. The solver, which has room for the start clauses, holds nothing afterwards.
fn broken_at_start<S: Solver>(solver: &mut S, case: &Case) -> Option<u32>
    requires { enough (S.Solver.capacity solver.old) case.now 0 ≡ true }
    ensures broken { BrokenAtStart case.now result }
    ensures held { S.Solver.held solver.new ≡ [] }
    ensures capacity { S.Solver.capacity solver.new ≡ S.Solver.capacity solver.old }
{
    // says that the system is an admitted one
    let _ = case.relays();
    let _ = load_start(solver, case);
    let mut broken = None;
    'clauses: for clause in case.list(ListName::Safety) {
        broken = initial_against(solver, case, clause);
        if broken.is_some() {
            break 'clauses;
        }
    }
    solver.wipe();
    broken
}
