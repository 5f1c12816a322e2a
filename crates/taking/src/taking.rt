// Candidates that are true at the start, and the descent on these.
ghost use Rattle.std.specs.Prelude.{◌≡◌, ◌<◌, ◌↔◌, true, [], drop, length, take};
ghost use Rattle.system.specs.Literals.{bit, clause};
ghost use Rattle.system.specs.Systems.{Initiation, OverRelays};
ghost use Rattle.solver.specs.Answers.{need_of, spare};
ghost use Rattle.layout.specs.Spelling.{Admitted};
ghost use Rattle.clauses.specs.Candidates.{CandidateList};
ghost use Rattle.books.specs.Books.{Ready};
ghost use Rattle.taking.specs.Taking.{InitiallyTrue, Sieved, TakesLargest};

use books::{Entry, load_book, load_start};
use candidate_sieve::CandidateSieve;
use cases::Case;
use questions::initial_against;
use sieve::{Sieve, descend};
use solver::Solver;

// Marks the largest set of the candidates that is inductive together relative to the book, where the solver has room for
// the case, the book and the candidates. The solver holds nothing afterwards.
pub fn choose<S: Solver>(
    solver: &mut S,
    case: &Case,
    entries: &[Entry],
    candidates: &CandidateSieve,
    marks: &mut [u8; 512],
)
    ensures sieved { Ready case.now entries.now (S.Solver.capacity solver.old) → CandidateList case.now.n candidates.now → Sieved case.now entries.now candidates.now (take (length candidates.now) marks.new) }
    ensures largest { Ready case.now entries.now (S.Solver.capacity solver.old) → CandidateList case.now.n candidates.now → TakesLargest case.now entries.now candidates.now (take (length candidates.now) marks.new) }
    ensures rest { drop (length candidates.now) marks.new ≡ drop (length candidates.now) marks.old }
    ensures held { S.Solver.held solver.new ≡ [] }
    ensures capacity { S.Solver.capacity solver.new ≡ S.Solver.capacity solver.old }
{
    let places = candidates.places();
    let chosen = &mut marks[..places];
    mark_initiated(solver, case, candidates, chosen);
    // neither call refuses where there is room for the book and the candidates
    let _ = load_book(solver, case, entries);
    let _ = descend(candidates, solver, chosen);
    solver.wipe();
}

// Marks the candidates that are true in every initial state, where the solver has room for the start clauses.
fn mark_initiated<S: Solver>(
    solver: &mut S,
    case: &Case,
    candidates: &CandidateSieve,
    marks: &mut [u8],
)
    requires { length marks.old ≡ length candidates.now }
    ensures initially { spare (need_of case.now.start) [] (S.Solver.capacity solver.old) ≡ true → CandidateList case.now.n candidates.now → InitiallyTrue case.now candidates.now marks.new }
    ensures admitted { Admitted case.now }
    ensures capacity { S.Solver.capacity solver.new ≡ S.Solver.capacity solver.old }
{
    // asked only to learn that a case is an admitted system
    prove!(case.relays() <= 32);
    // fits where there is the room
    let _ = load_start(solver, case);
    for (i, candidate) in candidates.candidates().enumerate() {
        marks[i] = initial_mark(solver, case, candidate);
    }
}

// 1 where a clause is true in every initial state, else 0, where the solver holds the start clauses and the clause is over
// the relays. It counts as its first 32 literals. The solver holds what it held.
fn initial_mark<S: Solver>(solver: &mut S, case: &Case, candidate: &[u8]) -> u8
    ensures bound { result < 2 }
    ensures initiated { S.Solver.held solver.old ≡ case.now.start → OverRelays case.now.n (take 32 candidate.now) → (result ≡ 1) ↔ Initiation case.now (λ s. clause (bit s) (take 32 candidate.now)) }
    ensures held { S.Solver.held solver.new ≡ S.Solver.held solver.old }
    ensures capacity { S.Solver.capacity solver.new ≡ S.Solver.capacity solver.old }
{
    match initial_against(solver, case, candidate) {
        Some(_) => 0,
        None => 1,
    }
}
