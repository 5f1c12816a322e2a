// Reading entries, and the run of a closed work.
ghost use Rattle.std.specs.Prelude.{◌≡◌, ◌-◌, false, ◌||◌, if◌then◌else◌, length, Some, None, nat_lt, slice_get};
ghost use Rattle.books.specs.Books.{Ruled};
ghost use Rattle.books.specs.Targets.{run_of};
ghost use Rattle.histories.specs.declared.verdict.Verdict.TheVariants.{BrokenByEntry};
ghost use Rattle.histories.specs.Reads.{stray, entry_at, state_at};
ghost use Rattle.histories.specs.Promises.{EntryPromises, RunPromises};

use crate::account::Account;
use crate::closed::Closed;
use crate::work::Work;
use books::Entry;
use faults::{ListName, WorkFault};
use histories::Verdict;

impl Work {
    // A used entry by its number. Refused are, in order, a book of another size than at opening, an entry against the rules, a
    // last entry that decided and is no subgoal, and a number that no used entry has.
    pub fn entry(&self, book: &[Entry], number: usize) -> Result<Entry, WorkFault>
        ensures value { result ≡ entry_at self.now book.now number }
        ensures promises { EntryPromises self.now book.now result }
    {
        self.account.entry(book, number)
    }
}

impl Closed {
    // A used entry by its number, refused as for an open work.
    pub fn entry(&self, book: &[Entry], number: usize) -> Result<Entry, WorkFault>
        ensures value { result ≡ entry_at self.now book.now number }
        ensures promises { EntryPromises self.now book.now result }
    {
        self.account.entry(book, number)
    }

    // A state of the run by its number: of the state found at opening, or of the last entry's state, its successor, and each
    // target's successor until the target is a safety clause. Refused are, in order, what reading an entry refuses of the
    // book, a verdict that is not broken, and a number past the end of the run.
    pub fn state(&self, book: &[Entry], number: usize) -> Result<u32, WorkFault>
        ensures value { result ≡ state_at self.now book.now number }
        ensures promises { RunPromises self.now book.now }
    {
        self.account.check_read(book)?;
        let state = match self.account.verdict {
            Verdict::Undecided | Verdict::Holds => return Err(WorkFault::NotBroken),
            Verdict::BrokenAt(state) => (number == 0).then_some(state),
            Verdict::BrokenByEntry => self
                .account
                .state_of_run(&book[..self.account.used], number),
        };
        state.ok_or(WorkFault::NoSuchState(number))
    }
}

impl Account {
    // A used entry by its number.
    fn entry(&self, book: &[Entry], number: usize) -> Result<Entry, WorkFault>
        ensures { result ≡ entry_at self.now book.now number }
    {
        self.check_read(book)?;
        book[..self.used]
            .get(number)
            .copied()
            .ok_or(WorkFault::NoSuchEntry(number))
    }

    // A state of the run that ends with the last entry: past its own state, the successors along the targets.
    fn state_of_run(&self, entries: &[Entry], number: usize) -> Option<u32>
        requires ruled { Ruled self.now.system entries.now }
        requires last { stray BrokenByEntry entries.now ≡ false }
        ensures { result ≡ slice_get (run_of self.now.system entries.now) number }
    {
        let mut at = entries.len().checked_sub(1)?;
        if number == 0 {
            return Some(entries[at].first);
        }
        for _ in 1..number {
            at = self.target_of(&entries[at])?;
        }
        Some(entries[at].second)
    }

    // The number of the subgoal that a subgoal's third names, if it names no safety clause.
    fn target_of(&self, entry: &Entry) -> Option<usize>
        ensures { result ≡ (if nat_lt entry.now.third (length self.now.system.safety) || nat_lt entry.now.third 256 then None else Some (entry.now.third - 256)) }
    {
        let target = usize::from(entry.third);
        if target < self.case.list(ListName::Safety).len() {
            return None;
        }
        target.checked_sub(256)
    }
}
