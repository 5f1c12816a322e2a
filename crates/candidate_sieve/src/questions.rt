// Questions about the marked clauses of a list: whether a step from where they are all true makes one false.
ghost use Rattle.std.specs.Prelude.{◌≡◌, ℕ, ◌+◌, ◌<◌, true, cond, [], ◌∷◌, ◌++◌, length};
ghost use Rattle.std.specs.List.{AllByRecursion};
ghost use Rattle.system.specs.Literals.{bit, clause};
ghost use Rattle.solver.specs.Answers.{fits, need_of, spare};
ghost use Rattle.lists.specs.Lists.{clauses_of};
ghost use Rattle.candidate_sieve.specs.Questions.{Found, unmarked, Settled};
ghost use Rattle.candidate_sieve.specs.Candidates.{Formed, chosen};

use denial::{Moment, deny};
use lists::ClauseList;
use sieve::Sifting;
use solver::{Answer, Solver};
use system::is_true;

// Adds the clause if it is marked, where it fits.
fn add_if_marked<S: Solver>(solver: &mut S, candidate: &[u8], mark: u8)
    requires { fits (S.Solver.held solver.old) candidate.now (S.Solver.capacity solver.old) ≡ true }
    ensures held { S.Solver.held solver.new ≡ S.Solver.held solver.old ++ chosen (mark ∷ []) (candidate.now ∷ []) }
    ensures capacity { S.Solver.capacity solver.new ≡ S.Solver.capacity solver.old }
{
    if mark == 1 {
        // fits, as is required
        let _ = solver.add(candidate);
    }
}

// Adds the marked clauses, for which there is room.
pub(crate) fn add_marked<S: Solver>(solver: &mut S, list: ClauseList, marks: &[u8])
    requires { spare (need_of (clauses_of list)) (S.Solver.held solver.old) (S.Solver.capacity solver.old) ≡ true }
    ensures held { S.Solver.held solver.new ≡ S.Solver.held solver.old ++ chosen marks.now (clauses_of list.entry) }
    ensures capacity { S.Solver.capacity solver.new ≡ S.Solver.capacity solver.old }
{
    for (candidate, mark) in list.zip(marks) {
        add_if_marked(solver, candidate, *mark);
    }
}

// The state after a step, of the values of the first 64 variables.
#[tactic(auto, using(crate::proofs::Denied::bit_after))]
fn state_after(low: u64) -> u32
    ensures { (v : ℕ) → v < 32 → bit result v ≡ bit low (32 + v) }
{
    // the value fits: it has no bit from 32 on
    (low >> 32) as u32
}

// The state after a step that the held clauses admit and that makes the clause false, if it is marked and there is one.
fn ask_if_marked<S: Solver>(solver: &mut S, candidate: &[u8], mark: u8) -> Option<u32>
    requires { Formed candidate.now }
    ensures answer { Found (S.Solver.held solver.old) (chosen (mark ∷ []) (candidate.now ∷ [])) result }
    ensures held { S.Solver.held solver.new ≡ S.Solver.held solver.old }
    ensures capacity { S.Solver.capacity solver.new ≡ S.Solver.capacity solver.old }
{
    if mark != 1 {
        return None;
    }
    let mut assumed = [0; 32];
    let count = deny(candidate, Moment::After, &mut assumed);
    match solver.query(&assumed[..count]) {
        Answer::Yes(low, _) => Some(state_after(low)),
        Answer::No => None,
    }
}

// The state after a step that the held clauses admit and that makes a marked clause false, if there is one.
pub(crate) fn find_broken<S: Solver>(solver: &mut S, list: ClauseList, marks: &[u8]) -> Option<u32>
    requires { AllByRecursion Formed (clauses_of list) }
    ensures answer { Found (S.Solver.held solver.old) (chosen marks.now (clauses_of list.entry)) result }
    ensures held { S.Solver.held solver.new ≡ S.Solver.held solver.old }
    ensures capacity { S.Solver.capacity solver.new ≡ S.Solver.capacity solver.old }
{
    for (candidate, mark) in list.zip(marks) {
        let broken = ask_if_marked(solver, candidate, *mark);
        if broken.is_some() {
            return broken;
        }
    }
    None
}

// The mark of the clause, taken away where the clause is false in the state.
fn mark_in(state: u32, candidate: &[u8], mark: u8) -> u8
    ensures { result ≡ cond (clause (bit state) candidate.now) mark 0 }
{
    if is_true(candidate, state) { mark } else { 0 }
}

// Takes away the marks of the clauses that are false in the state.
fn unmark_false(list: ClauseList, state: u32, marks: &mut [u8])
    requires { length marks.old ≡ length (clauses_of list) }
    ensures { marks.new ≡ unmarked state marks.old (clauses_of list.entry) }
{
    for (i, candidate) in list.enumerate() {
        marks[i] = mark_in(state, candidate, marks[i]);
    }
}

// Says that the marks are closed where no state is found, and else unmarks the clauses that are false in it.
pub(crate) fn settle(list: ClauseList, broken: Option<u32>, marks: &mut [u8]) -> Sifting
    requires { length marks.old ≡ length (clauses_of list) }
    ensures { Settled marks.old (clauses_of list.entry) broken result marks.new }
{
    let Some(state) = broken else {
        return Sifting::Closed;
    };
    unmark_false(list, state, marks);
    Sifting::Fewer
}
