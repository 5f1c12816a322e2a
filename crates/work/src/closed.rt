// A closed work.
ghost use Rattle.std.specs.Prelude.{◌≡◌};

use crate::account::Account;
use cases::Case;
use histories::Look;
use std::marker::Model;

// A work that was closed: it takes no turn any more, and a run can be read out of it. It ends by being put away.
pub struct Closed {
    pub(crate) account: Account,
}

impl Model for Closed {
    ghost use Rattle.histories.specs.Calls.{Progress};

    ghost Value = { Progress };

    ghost view = { λ closed. closed.account };
}

impl Closed {
    // The verdict, how many places are used, and how many there are.
    pub fn look(&self) -> Look
        ensures { result ≡ record { verdict = self.now.verdict; used = self.now.used; places = self.now.places } }
    {
        self.account.look()
    }

    // The case that was judged.
    pub fn case(&self) -> &Case
        ensures { result.now ≡ self.now.system }
    {
        &self.account.case
    }

    // Lets go of the work and its case.
    pub fn put_away(self) {
        let Closed { account } = self;
        let Account {
            case: _case,
            places: _,
            used: _,
            verdict: _,
        } = account;
    }
}
