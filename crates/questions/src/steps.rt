// Questions about steps.
ghost use Rattle.std.specs.Prelude.{◌≡◌, List, take};
ghost use Rattle.system.specs.Systems.{OverRelays};
ghost use Rattle.books.specs.declared.entry.Entry.{Entry};
ghost use Rattle.books.specs.Books.{Ruled, book_loaded};
ghost use Rattle.questions.specs.Questions.{StepAgainst};

use crate::initial::state_of;
use crate::transition::Transition;
use cases::Case;
use denial::{Moment, deny};
use solver::{Answer, Solver};

// A step from a state that is consistent with a book to one that makes the clause false, if there is one, where the solver
// holds the case and that book and the clause is over the relays. A clause counts as its first 32 literals. The solver holds
// what it held.
pub fn step_against<S: Solver>(solver: &mut S, case: &Case, clause: &[u8]) -> Option<Transition>
    ensures answer { (es : List Entry) → Ruled case.now es → S.Solver.held solver.old ≡ book_loaded case.now es → OverRelays case.now.n (take 32 clause.now) → StepAgainst case.now es (take 32 clause.now) result }
    ensures held { S.Solver.held solver.new ≡ S.Solver.held solver.old }
    ensures capacity { S.Solver.capacity solver.new ≡ S.Solver.capacity solver.old }
{
    let relays = case.relays();
    let mut assumed = [0; 32];
    let count = deny(clause, Moment::After, &mut assumed);
    match solver.query(&assumed[..count]) {
        Answer::Yes(low, _) => Some(Transition {
            state: state_of(relays, low),
            successor: state_of(relays, low >> 32),
        }),
        Answer::No => None,
    }
}
