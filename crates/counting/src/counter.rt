// The count through all assignments, and the step from one to the next.
ghost use Rattle.std.specs.Prelude.{◌≡◌, ℕ, true, Option, is_ok, is_none, MatchOption};
ghost use Rattle.system.specs.Literals.{bit};
ghost use Rattle.masks.specs.Masks.{mask_of};
ghost use Rattle.masks.specs.Questions.{Checked, Decided};
ghost use Rattle.masks.specs.declared.mask.ClauseMask.{ClauseMask};
ghost use Rattle.counting.specs.Orders.{Stepped, opposed};

use keeping::Engine;
use masks::{ClauseMask, Question, without, yes_of};
use solver::{Answer, Capacity};
use std::alloc::{AllocError, Global};

// Counts anew for each question, and keeps nothing.
#[derive(Clone, Copy, PartialEq, Eq, Debug)]
pub struct Counter;

impl Engine for Counter {
    // it needs none
    ghost prepared = { λ counter capacity. true };

    fn prepare(_heap: Global, _capacity: Capacity) -> Result<Counter, AllocError>
        ensures { is_ok result ≡ true }
    {
        Ok(Counter)
    }

    fn answer(&mut self, question: Question) -> Answer {
        counted(question)
    }
}

// The next assignment: the last of the false variables becomes true, and those behind it false; or none, where all are true.
fn next(trues: u128, falses: u128) -> Option<u128>
    ensures { MatchOption result (falses ≡ 0) (λ following. (q : ℕ) × Stepped trues falses following q) }
{
    if falses == 0 {
        return None;
    }
    let bit = 1 << falses.ilog2();
    Some((trues % bit) | bit)
}

// Whether the assignment makes every held clause and assumed literal true. The opposites of the assumed literals are tested at
// once before the clauses: there may be many of either, and the test is made at each assignment.
fn serves(question: Question, opposites: ClauseMask, assignment: ClauseMask) -> bool
    requires opposites { opposites ≡ opposed (mask_of question.assumed.now) }
    requires once { (j : ℕ) → bit assignment.positive j ≡ true → bit assignment.negative j ≡ true → ⊥ }
    ensures { (unmet : Option ClauseMask) × Checked question.entry.masks.now question.entry.assumed.now assignment unmet × (result ≡ is_none unmet) }
{
    if !question.assumed.is_empty() && opposites.meets(assignment) {
        return false;
    }
    question.unmet(assignment).is_none()
}

// The answer: the first assignment that serves, or none.
fn counted(question: Question) -> Answer
    ensures { Decided question.entry result }
{
    let all = question.variables();
    let assumed = ClauseMask::from(question.assumed);
    let opposites = ClauseMask {
        positive: assumed.negative,
        negative: assumed.positive,
    };
    let mut trues = 0;
    'assignments: loop {
        let assignment = ClauseMask {
            positive: trues,
            negative: without(all, trues),
        };
        if serves(question, opposites, assignment) {
            return yes_of(trues);
        }
        let Some(following) = next(trues, assignment.negative) else {
            return Answer::No;
        };
        trues = following;
    }
}
