// The descent from a state, and the trim of what it ends on.
ghost use Rattle.std.specs.Prelude.{◌≡◌, ◌<◌, ◌≤◌, true, [], length, IsTrue, ◌↔◌};
ghost use Rattle.solver.specs.Answers.{need_of, spare};
ghost use Rattle.sieve.specs.Marks.{Marks};
ghost use Rattle.sieve.specs.Trims.{Tried};
ghost use Rattle.books.specs.Books.{Ready, Holding};
ghost use Rattle.learning.specs.Learning.{LiteralClosed, Initiated, TrimmedTo, LearnedAt};
ghost use Rattle.learning.specs.Minimal.{LearnsMinimal};

use books::{Entry, Kind, load_book, load_start};
use cases::Case;
use literal_sieve::LiteralSieve;
use questions::initial_against;
use sieve::{Sieve, descend};
use solver::Solver;

// The entry of a clause that is false at the state and inductive relative to the book, of which no part is, if some clause
// that is false there is inductive; where the solver holds the case and its book. The solver holds nothing afterwards.
pub fn learn<S: Solver>(solver: &mut S, case: &Case, entries: &[Entry], state: u32) -> Option<Entry>
    ensures learned { Holding case.now entries.now (S.Solver.held solver.old) (S.Solver.capacity solver.old) → LearnedAt case.now entries.now state result }
    ensures minimal { Holding case.now entries.now (S.Solver.held solver.old) (S.Solver.capacity solver.old) → LearnsMinimal case.now entries.now state result }
    ensures held { S.Solver.held solver.new ≡ [] }
    ensures capacity { S.Solver.capacity solver.new ≡ S.Solver.capacity solver.old }
{
    let sieve = LiteralSieve::new(case, state);
    let mut places = [1; 32];
    let marks = &mut places[..sieve.places()];
    // refuses nothing: marks are of all places, and beside the book there is room for a clause
    let _ = descend(&sieve, solver, marks);
    if !is_initiated(solver, case, state, marks) {
        solver.wipe();
        return None;
    }
    trim(solver, case, entries, state, marks);
    solver.wipe();
    let mut clause = [0; 32];
    let count = sieve.write_clause(marks, &mut clause);
    Some(Entry::of_clause(Kind::Found, &clause[..count]))
}

// Whether the marked clause is true in every initial state, where the solver has room for the start clauses. What it held is
// gone then.
fn is_initiated<S: Solver>(solver: &mut S, case: &Case, state: u32, marks: &[u8]) -> bool
    ensures initiated { spare (need_of case.now.start) [] (S.Solver.capacity solver.old) ≡ true → IsTrue result ↔ Initiated case.now state marks.now }
    ensures capacity { S.Solver.capacity solver.new ≡ S.Solver.capacity solver.old }
{
    let mut clause = [0; 32];
    let count = LiteralSieve::new(case, state).write_clause(marks, &mut clause);
    // fits where there is the room
    let _ = load_start(solver, case);
    initial_against(solver, case, &clause[..count]).is_none()
}

// Tries the relays one after another, from 0 up.
fn trim<S: Solver>(solver: &mut S, case: &Case, entries: &[Entry], state: u32, marks: &mut [u8])
    requires { length marks.old ≤ 32 }
    ensures trimmed { Ready case.now entries.now (S.Solver.capacity solver.old) → Marks case.now.n marks.old → TrimmedTo case.now entries.now state marks.old marks.new }
    ensures capacity { S.Solver.capacity solver.new ≡ S.Solver.capacity solver.old }
{
    for relay in 0..marks.len() {
        try_without(solver, case, entries, state, marks, relay);
    }
}

// Where the relay is marked, what the descent without it ends on replaces the marks if its clause is true in every initial
// state.
fn try_without<S: Solver>(
    solver: &mut S,
    case: &Case,
    entries: &[Entry],
    state: u32,
    marks: &mut [u8],
    relay: usize,
)
    requires few { length marks.old ≤ 32 }
    requires relay { relay < length marks.old }
    ensures tried { Ready case.now entries.now (S.Solver.capacity solver.old) → Marks case.now.n marks.old → Tried case.now.n (LiteralClosed case.now entries.now state) (Initiated case.now state) relay marks.old marks.new }
    ensures capacity { S.Solver.capacity solver.new ≡ S.Solver.capacity solver.old }
{
    if marks[relay] != 1 {
        return;
    }
    let mut places = [0; 32];
    let less = &mut places[..marks.len()];
    less.copy_from_slice(marks);
    less[relay] = 0;
    // since the last test the solver has held the start clauses; neither call refuses where there is room for the book
    let _ = load_book(solver, case, entries);
    let _ = descend(&LiteralSieve::new(case, state), solver, less);
    if is_initiated(solver, case, state, less) {
        marks.copy_from_slice(less);
    }
}
