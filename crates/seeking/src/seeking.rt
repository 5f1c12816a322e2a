// The loops over the targets.
ghost use Rattle.std.specs.Prelude.{◌≡◌, ◌<◌, ◌≤◌, ℕ, List, length, MatchOption};
ghost use Rattle.books.specs.declared.entry.Entry.{Entry};
ghost use Rattle.books.specs.Books.{Ruled, book_loaded, Holding};
ghost use Rattle.books.specs.Targets.{Counterexample as IsCounterexample, FirstCounterexample};
ghost use Rattle.seeking.specs.Seeking.{Sought};

use crate::counterexample::Counterexample;
use books::{Entry, Kind};
use cases::Case;
use faults::ListName;
use questions::step_against;
use solver::Solver;

// A counterexample for the first target that has one, if there is one, where the solver holds the case and its book. A book
// has far fewer entries than the 65280 that 16 bits number from 256 on. The solver holds what it held.
pub fn find_counterexample<S: Solver>(
    solver: &mut S,
    case: &Case,
    entries: &[Entry],
) -> Option<Counterexample>
    ensures answer { Holding case.now entries.now (S.Solver.held solver.old) (S.Solver.capacity solver.old) → length entries.now ≤ 65280 → Sought case.now entries.now result }
    ensures held { S.Solver.held solver.new ≡ S.Solver.held solver.old }
    ensures capacity { S.Solver.capacity solver.new ≡ S.Solver.capacity solver.old }
{
    let found = among_clauses(solver, case);
    if found.is_some() {
        return found;
    }
    among_subgoals(solver, case, entries)
}

// A counterexample for the first safety clause that has one, where the solver holds the case and a book.
fn among_clauses<S: Solver>(solver: &mut S, case: &Case) -> Option<Counterexample>
    ensures answer { (es : List Entry) → Ruled case.now es → S.Solver.held solver.old ≡ book_loaded case.now es → MatchOption result ((k s t : ℕ) → k < 256 → IsCounterexample case.now es k s t → ⊥) (λ x. FirstCounterexample case.now es x.target x.state x.successor) }
    ensures held { S.Solver.held solver.new ≡ S.Solver.held solver.old }
    ensures capacity { S.Solver.capacity solver.new ≡ S.Solver.capacity solver.old }
{
    // asked only to learn that a case is an admitted system
    prove!(case.relays() <= 32);
    let mut found = None;
    'clauses: for (number, clause) in case.list(ListName::Safety).enumerate() {
        if let Some(step) = step_against(solver, case, clause) {
            found = Some(Counterexample {
                state: step.state,
                successor: step.successor,
                // stays a cast: there are at most 256 safety clauses
                target: number as u16,
            });
            break 'clauses;
        }
    }
    found
}

// A counterexample for the first subgoal that has one, where the solver holds the case and its book and no safety clause
// has one.
fn among_subgoals<S: Solver>(
    solver: &mut S,
    case: &Case,
    entries: &[Entry],
) -> Option<Counterexample>
    ensures answer { Holding case.now entries.now (S.Solver.held solver.old) (S.Solver.capacity solver.old) → length entries.now ≤ 65280 → ((k s t : ℕ) → k < 256 → IsCounterexample case.now entries.now k s t → ⊥) → Sought case.now entries.now result }
    ensures held { S.Solver.held solver.new ≡ S.Solver.held solver.old }
    ensures capacity { S.Solver.capacity solver.new ≡ S.Solver.capacity solver.old }
{
    // asked only to learn that a case is an admitted system
    prove!(case.relays() <= 32);
    let mut found = None;
    'subgoals: for (number, entry) in entries.iter().enumerate() {
        if let Kind::Subgoal = entry.kind {
            let mut clause = [0; 32];
            let count = entry.write_held(case, &mut clause);
            if let Some(step) = step_against(solver, case, &clause[..count]) {
                found = Some(Counterexample {
                    state: step.state,
                    successor: step.successor,
                    // stays a cast: 16 bits number 65280 entries from 256 on
                    target: ((256 + number) % 65536) as u16,
                });
                break 'subgoals;
            }
        }
    }
    found
}
