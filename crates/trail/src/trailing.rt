// What is done to a trail.
ghost use Rattle.std.specs.Prelude.{◌≡◌, ◌+◌, ◌<◌, ◌≤◌, [], length, min, take, IfOk, MatchBool, MatchOption, slice_index_or};
ghost use Rattle.masks.specs.Standings.{Unassigned};
ghost use Rattle.trail.specs.Decisions.{Free, literals_of};
ghost use Rattle.trail.specs.Changes.{Assigned, Changed};
ghost use Rattle.trail.specs.Entries.{entries, made_true, handed_out};

use crate::decision::{Decision, Forcing};
use crate::trail::Trail;
use masks::{ClauseMask, Literal};
use std::alloc::{AllocError, Global};

// The literals that the decisions make true.
fn spelled(decisions: &[Decision]) -> ClauseMask
    ensures { result ≡ literals_of decisions.now }
{
    decisions.iter().fold(
        ClauseMask::NONE,
        |assigned, decision| assigned.with_value(decision.literal()),
    )
}

// Whether it is a variable without a value.
fn is_free(assigned: ClauseMask, variable: u8) -> bool
    ensures { MatchBool result ((variable < 128) × Unassigned assigned variable) ((variable < 128) × Unassigned assigned variable → ⊥) }
{
    variable < 128 && !assigned.mentions(variable)
}

impl Trail {
    // No decision, with room for one on each variable.
    pub fn new(heap: Global) -> Result<Trail, AllocError>
        ensures { IfOk result (λ t. (entries t ≡ []) × (handed_out t ≡ 0)) }
    {
        let decisions = Vec::with_capacity(heap, 128)?;
        Ok(Trail {
            decisions,
            assigned: ClauseMask::NONE,
            done: 0,
        })
    }

    // Lets go of all decisions.
    pub fn clear(&mut self)
        ensures entries { entries self.new ≡ [] }
        ensures done { handed_out self.new ≡ 0 }
    {
        self.decisions.clear();
        self.assigned = ClauseMask::NONE;
        self.done = 0;
    }

    // The decisions in their order.
    pub fn decisions(&self) -> &[Decision]
        ensures { result.now ≡ entries self.now }
    {
        self.decisions.as_slice()
    }

    // The literals that the decisions make true.
    pub fn assigned(&self) -> ClauseMask
        ensures { result ≡ made_true self.now }
    {
        self.assigned
    }

    // The first decision that was not handed out yet.
    pub fn advance(&mut self) -> Option<Decision>
        ensures entries { entries self.new ≡ entries self.old }
        ensures assigned { made_true self.new ≡ made_true self.old }
        ensures found { MatchOption result ((length (entries self.old) ≤ handed_out self.old) × (handed_out self.new ≡ handed_out self.old)) (λ d. (handed_out self.old < length (entries self.old)) × (d ≡ slice_index_or (entries self.old) (handed_out self.old) d) × (handed_out self.new ≡ handed_out self.old + 1)) }
    {
        let decision = *self.decisions.get(self.done)?;
        self.done += 1;
        Some(decision)
    }

    // One more decision, where the variable has no value.
    pub fn assign(&mut self, literal: Literal, forcing: Forcing)
        ensures assigned { Assigned (entries self.old) literal.variable literal.value forcing (entries self.new) }
        ensures done { handed_out self.new ≡ handed_out self.old }
    {
        if is_free(self.assigned, literal.variable) {
            self.decisions.push_reserved(Decision {
                variable: literal.variable,
                value: literal.value,
                forcing,
            });
            self.assigned = self.assigned.with_value(literal);
        }
    }

    // Lets go of all decisions behind the entry and changes that one in its place, where the variable has no value before it.
    // The changed entry counts as not handed out.
    pub fn change(&mut self, at: usize, literal: Literal, forcing: Forcing)
        ensures entries { Changed (entries self.old) at literal.variable literal.value forcing (entries self.new) }
        ensures done { at < length (entries self.old) → literal.variable < 128 → Free (take at (entries self.old)) literal.variable → handed_out self.new ≡ min (handed_out self.old) at }
        ensures left { ((at < length (entries self.old)) × (literal.variable < 128) × Free (take at (entries self.old)) literal.variable → ⊥) → handed_out self.new ≡ handed_out self.old }
    {
        if at >= self.decisions.len() {
            return;
        }
        let before = spelled(&self.decisions[..at]);
        if is_free(before, literal.variable) {
            self.decisions.truncate(at + 1);
            let entry = &mut self.decisions[at];
            *entry = Decision {
                variable: literal.variable,
                value: literal.value,
                forcing,
            };
            self.assigned = before.with_value(literal);
            self.done = self.done.min(at);
        }
    }
}
