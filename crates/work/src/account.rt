// What an open work and a closed one keep.
use cases::Case;
use histories::{Look, Verdict};
use std::marker::Model;

// The case that was read at opening, the places of the book, how many of them are used, and the verdict. A clause sees all
// four, and the case as its system.
pub(crate) struct Account {
    pub(crate) case: Case,
    pub(crate) places: usize,
    pub(crate) used: usize,
    pub(crate) verdict: Verdict,
}

impl Model for Account {
    ghost use Rattle.std.specs.Prelude.{◌≤◌};
    ghost use Rattle.layout.specs.Spelling.{Admitted};
    ghost use Rattle.histories.specs.Calls.{Progress};

    ghost Value = { Progress };

    ghost view = { λ a. record { system = a.case; places = a.places; used = a.used; verdict = a.verdict } };

    ghost invariant = { λ a. (a.used ≤ a.places) × (a.places ≤ 8192) × Admitted a.case };
}

impl Account {
    ghost use Rattle.std.specs.Prelude.{◌≡◌};

    // The verdict, how many places are used, and how many there are.
    pub(crate) fn look(&self) -> Look
        ensures { result ≡ record { verdict = self.now.verdict; used = self.now.used; places = self.now.places } }
    {
        Look {
            verdict: self.verdict,
            used: self.used,
            places: self.places,
        }
    }
}
