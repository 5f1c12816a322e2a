// Questions about initial states.
ghost use Rattle.std.specs.Prelude.{◌≡◌, ◌%◌, ◌^◌, ◌≤◌, IsTrue, take, ◌↔◌};
ghost use Rattle.system.specs.Systems.{Initial, OverRelays};
ghost use Rattle.questions.specs.Questions.{InitialAgainst};

use cases::Case;
use denial::{Moment, deny};
use faults::ListName;
use solver::{Answer, Solver};
use system::is_true;

// An initial state that makes the clause false, if there is one, where the solver holds the start clauses and the clause is
// over the relays. A clause counts as its first 32 literals. The solver holds what it held.
pub fn initial_against<S: Solver>(solver: &mut S, case: &Case, clause: &[u8]) -> Option<u32>
    ensures answer { S.Solver.held solver.old ≡ case.now.start → OverRelays case.now.n (take 32 clause.now) → InitialAgainst case.now (take 32 clause.now) result }
    ensures held { S.Solver.held solver.new ≡ S.Solver.held solver.old }
    ensures capacity { S.Solver.capacity solver.new ≡ S.Solver.capacity solver.old }
{
    let relays = case.relays();
    let mut assumed = [0; 32];
    let count = deny(clause, Moment::Before, &mut assumed);
    match solver.query(&assumed[..count]) {
        Answer::Yes(low, _) => Some(state_of(relays, low)),
        Answer::No => None,
    }
}

// The state of so many relays, whose values the number begins with.
pub(crate) fn state_of(relays: u32, values: u64) -> u32
    requires { relays ≤ 32 }
    ensures { result ≡ values % 2 ^ relays }
{
    // stays a cast: there are at most 32 relays
    (values % (1 << relays)) as u32
}

// Whether the state is initial.
pub fn is_initial(case: &Case, state: u32) -> bool
    ensures { IsTrue result ↔ Initial case.now state }
{
    u64::from(state) < 1 << case.relays()
        && case
            .list(ListName::Start)
            .all(|clause| is_true(clause, state))
}
