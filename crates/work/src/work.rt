// An open work.
ghost use Rattle.std.specs.Prelude.{◌≡◌};
ghost use Rattle.histories.specs.Promises.{ClosingPromises};

use crate::account::Account;
use crate::closed::Closed;
use histories::Look;
use std::marker::Model;

// A work that was opened and not yet closed. It can be neither copied nor dropped: it ends by being closed.
pub struct Work {
    pub(crate) account: Account,
}

impl Model for Work {
    ghost use Rattle.histories.specs.Calls.{Progress};

    ghost Value = { Progress };

    ghost view = { λ work. work.account };
}

impl Work {
    // The verdict, how many places are used, and how many there are.
    pub fn look(&self) -> Look
        ensures { result ≡ record { verdict = self.now.verdict; used = self.now.used; places = self.now.places } }
    {
        self.account.look()
    }

    // Closes the work, which keeps what it has. After any list of calls the verdict is right.
    pub fn close(self) -> Closed
        ensures kept { result ≡ self }
        ensures right { ClosingPromises result }
    {
        let Work { account } = self;
        Closed { account }
    }
}
