// What is checked before a turn, a taking or a reading.
ghost use Rattle.std.specs.Prelude.{◌≡◌, ℕ, List, length, ◌==◌};
ghost use Rattle.faults.specs.Firsts.{unmet, unless};
ghost use Rattle.faults.specs.declared.work.WorkFault.TheVariants.{BookSize};
ghost use Rattle.layout.specs.Spelling.{Admitted};
ghost use Rattle.histories.specs.Calls.{decided, checked};
ghost use Rattle.histories.specs.Reads.{stray, read_fault};

use crate::account::Account;
use books::{Entry, Kind, check_entries, check_room};
use faults::WorkFault;
use histories::Verdict;
use solver::Solver;

impl Account {
    // Whether a verdict was given.
    pub(crate) fn is_decided(&self) -> bool
        ensures { result ≡ decided self.now.verdict }
    {
        !matches!(self.verdict, Verdict::Undecided)
    }

    // What is checked before a turn or a taking: that no verdict was given, the book's size, its entries, and the room.
    pub(crate) fn check<S: Solver>(&self, solver: &S, book: &[Entry]) -> Result<(), WorkFault>
        ensures value { (held : List (List ℕ)) → result ≡ unless (checked (S.Solver.capacity solver.now) (record { work = self.now; book = book.now; held = held })) tt }
        ensures admitted { Admitted self.now.system }
    {
        let case = &self.case;
        if self.is_decided() {
            return Err(WorkFault::Decided);
        }
        self.check_size(book)?;
        check_entries(case, &book[..self.used])?;
        check_room(solver, case, self.places)
    }

    // Whether the book has the size that it had at opening.
    pub(crate) fn check_size(&self, book: &[Entry]) -> Result<(), WorkFault>
        ensures { result ≡ unless (unmet (length book.now == self.now.places) BookSize) tt }
    {
        if book.len() != self.places {
            return Err(WorkFault::BookSize);
        }
        Ok(())
    }

    // What is checked before a reading: the book's size, its entries, and that the last one is a subgoal where it decided.
    pub(crate) fn check_read(&self, book: &[Entry]) -> Result<(), WorkFault>
        ensures { result ≡ unless (read_fault self.now book.now) tt }
    {
        self.check_size(book)?;
        let entries = &book[..self.used];
        check_entries(&self.case, entries)?;
        if is_stray(self.verdict, entries) {
            return Err(WorkFault::AgainstRules(0));
        }
        Ok(())
    }
}

// Whether the last entry decided and is no subgoal.
fn is_stray(verdict: Verdict, entries: &[Entry]) -> bool
    ensures { result ≡ stray verdict entries.now }
{
    match verdict {
        Verdict::BrokenByEntry => match entries.last() {
            Some(entry) => !matches!(entry.kind, Kind::Subgoal),
            None => true,
        },
        _ => false,
    }
}
