// Questions that a solver's engine answers.
ghost use Rattle.std.specs.Prelude.{◌≡◌, ℕ, true};
ghost use Rattle.system.specs.Literals.{bit};
ghost use Rattle.masks.specs.Questions.{Among, Mentioned, Within, Checked};
ghost use Rattle.masks.specs.declared.mask.ClauseMask.{ClauseMask};

use crate::mask::ClauseMask;

// What is asked: whether the held clauses, by their sets of literals, and the assumed literals can all be true.
#[derive(Clone, Copy)]
pub struct Question<'a> {
    pub masks: &'a [ClauseMask],
    pub assumed: &'a [u8],
}

impl<'a> Question<'a> {
    // The variables of the clauses and of the assumed literals.
    pub fn variables(self) -> u128
        ensures all { (m : ClauseMask) → Among self.entry.masks.now self.entry.assumed.now m → Within result m }
        ensures just { (j : ℕ) → bit result j ≡ true → Mentioned self.entry.masks.now self.entry.assumed.now j }
    {
        // two plain loops: a chain of both needs a map and a fold, and is no plainer
        let mut found = 0u128;
        for mask in self.masks {
            found |= mask.variables();
        }
        for literal in self.assumed {
            found |= ClauseMask::NONE.with_literal(*literal).variables();
        }
        found
    }

    // A held clause, or the clause of an assumed literal, that has no literal in the set; none where all have one.
    pub fn unmet(self, set: ClauseMask) -> Option<ClauseMask>
        ensures { Checked self.entry.masks.now self.entry.assumed.now set result }
    {
        // the held clauses first, and two plain loops: a solver that counts passes here at each assignment
        for clause in self.masks {
            if !clause.meets(set) {
                return Some(*clause);
            }
        }
        for byte in self.assumed {
            if !set.has_literal(*byte) {
                return Some(ClauseMask::NONE.with_literal(*byte));
            }
        }
        None
    }
}
