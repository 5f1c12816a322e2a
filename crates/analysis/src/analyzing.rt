// Resolution back along the trail.
ghost use Rattle.std.specs.Prelude.{◌≡◌, ℕ, ◌<◌, Bool, true, not, ◌&&◌, ◌||◌, length, ◌==◌};
ghost use Rattle.masks.specs.Masks.{inside};
ghost use Rattle.trail.specs.Decisions.{distinct};
ghost use Rattle.trail.specs.Entries.{entries};
ghost use Rattle.analysis.specs.Conflicts.{Settled, Lands, reason_of, Asserts, Analyzed};

use crate::jump::Jump;
use masks::{ClauseMask, Literal, set_of, without};
use trail::{Decision, Forcing, Trail};

// The variables that have a value before the last choice. Nothing rests on it but speed.
fn settled(decisions: &[Decision]) -> u128
    ensures { Settled decisions.now result }
{
    let mut known = 0u128;
    let mut before = 0u128;
    for decision in decisions {
        if matches!(decision.forcing, Forcing::Chosen) {
            before = known;
        }
        known |= set_of(decision.variable);
    }
    before
}

// The first choice, up to the entry last, before which each of the needed variables has a value.
fn landing(decisions: &[Decision], last: usize, needed: u128) -> Option<usize>
    requires { last < length decisions.now }
    ensures { Lands decisions.now last needed result }
{
    let mut rest = needed;
    for (i, decision) in decisions[..=last].iter().enumerate() {
        if rest == 0 && matches!(decision.forcing, Forcing::Chosen) {
            return Some(i);
        }
        rest = without(rest, set_of(decision.variable));
    }
    None
}

// Where to jump back to, if a clause with no variable above the entry has only that of the entry behind some choice. It is
// looked for once the other variables are settled; before that there is none but a choice itself.
fn asserted(decisions: &[Decision], at: usize, clause: ClauseMask, settled: u128) -> Option<usize>
    requires within { at < length decisions.now }
    requires once { distinct decisions.now ≡ true }
    ensures { Asserts decisions.now at clause result }
{
    let decision = decisions[at];
    let needed = without(clause.variables(), set_of(decision.variable));
    let earlier = if without(needed, settled) == 0 {
        landing(decisions, at, needed)
    } else {
        None
    };
    earlier.or(matches!(decision.forcing, Forcing::Chosen).then_some(at))
}

// The clause without the variable of the decision, and with the other literals of what forced it.
fn reduced(clause: ClauseMask, decision: Decision) -> ClauseMask
    ensures { (j : ℕ) (b : Bool) → inside result j b ≡ ((inside clause j b || inside (reason_of decision.forcing) j b) && not (j == decision.variable)) }
{
    let reason = match decision.forcing {
        Forcing::Forced(reason) => reason,
        Forcing::Assumed | Forcing::Chosen => ClauseMask::NONE,
    };
    clause.resolved(reason, decision.variable)
}

// What follows of a clause that is all false: where to jump back to and what is forced there, or that nothing can be true.
pub fn analyze(trail: &Trail, conflict: ClauseMask) -> Option<Jump>
    ensures { Analyzed (entries trail.now) conflict result }
{
    let decisions = trail.decisions();
    let settled = settled(decisions);
    let mut clause = conflict;
    for (at, decision) in decisions.iter().enumerate().rev() {
        if clause.mentions(decision.variable) {
            if let Some(to) = asserted(decisions, at, clause, settled) {
                return Some(Jump {
                    to,
                    literal: Literal {
                        variable: decision.variable,
                        value: !decision.value,
                    },
                    clause,
                });
            }
            clause = reduced(clause, *decision);
        }
    }
    None
}
