// Turns.
ghost use Rattle.std.specs.Prelude.{◌≡◌, ◌+◌, ◌<◌, [], ◌∷◌, length, None};
ghost use Rattle.layout.specs.Spelling.{Admitted};
ghost use Rattle.books.specs.Books.{Holding};
ghost use Rattle.histories.specs.Calls.{checked, written, Learned, Turned};
ghost use Rattle.histories.specs.Promises.{TurnPromises};

use crate::account::Account;
use crate::work::Work;
use books::{Entry, load_book};
use faults::WorkFault;
use histories::Verdict;
use learning::learn;
use questions::is_initial;
use seeking::{Counterexample, find_counterexample};
use solver::Solver;

impl Work {
    // Takes a turn. Refused are, in order, a turn after a verdict, a book of another size than at opening, an entry against the
    // rules, and a solver with too little room, all of which leave everything as it was. Where no step leads from a state that
    // is consistent with the book to a target, the verdict is that the case holds, and the solver is left holding the case
    // and the book. Otherwise one entry is stored, where there is a place: a clause that excludes the state, or the state as
    // a subgoal, which breaks the case where it is initial; and the solver holds nothing.
    pub fn turn<S: Solver>(&mut self, solver: &mut S, book: &mut [Entry]) -> Result<(), WorkFault>
        ensures turned { Turned (S.Solver.capacity solver.old) (record { work = self.old; book = book.old; held = S.Solver.held solver.old }) result (record { work = self.new; book = book.new; held = S.Solver.held solver.new }) }
        ensures promises { TurnPromises (record { work = self.old; book = book.old; held = S.Solver.held solver.old }) result (record { work = self.new; book = book.new; held = S.Solver.held solver.new }) }
        ensures capacity { S.Solver.capacity solver.new ≡ S.Solver.capacity solver.old }
    {
        self.account.turn(solver, book)
    }
}

impl Account {
    // The turn, by what it does.
    fn turn<S: Solver>(&mut self, solver: &mut S, book: &mut [Entry]) -> Result<(), WorkFault>
        ensures turned { Turned (S.Solver.capacity solver.old) (record { work = self.old; book = book.old; held = S.Solver.held solver.old }) result (record { work = self.new; book = book.new; held = S.Solver.held solver.new }) }
        ensures admitted { Admitted self.old.system }
        ensures capacity { S.Solver.capacity solver.new ≡ S.Solver.capacity solver.old }
    {
        self.check(solver, book)?;
        self.take_turn(solver, book)
    }

    // The turn after the checks.
    fn take_turn<S: Solver>(&mut self, solver: &mut S, book: &mut [Entry]) -> Result<(), WorkFault>
        requires { checked (S.Solver.capacity solver.old) (record { work = self.old; book = book.old; held = S.Solver.held solver.old }) ≡ None }
        ensures turned { Turned (S.Solver.capacity solver.old) (record { work = self.old; book = book.old; held = S.Solver.held solver.old }) result (record { work = self.new; book = book.new; held = S.Solver.held solver.new }) }
        ensures capacity { S.Solver.capacity solver.new ≡ S.Solver.capacity solver.old }
    {
        let entries = &book[..self.used];
        let _ = load_book(solver, &self.case, entries);
        let Some(found) = find_counterexample(solver, &self.case, entries) else {
            self.verdict = Verdict::Holds;
            return Ok(());
        };
        if self.used == self.places {
            solver.wipe();
            return Err(WorkFault::NoPlace);
        }
        let (entry, verdict) = self.learn_from(solver, entries, found);
        self.store(book, entry, verdict);
        Ok(())
    }

    // The entry that is made of a counterexample, and the verdict that it gives; where the solver holds the case and the book. The
    // solver holds nothing afterwards.
    fn learn_from<S: Solver>(
        &self,
        solver: &mut S,
        entries: &[Entry],
        found: Counterexample,
    ) -> (Entry, Verdict)
        ensures learned { Holding self.now.system entries.now (S.Solver.held solver.old) (S.Solver.capacity solver.old) → Learned self.now.system entries.now found.target found.state found.successor result.0 result.1 }
        ensures held { S.Solver.held solver.new ≡ [] }
        ensures capacity { S.Solver.capacity solver.new ≡ S.Solver.capacity solver.old }
    {
        if let Some(entry) = learn(solver, &self.case, entries, found.state) {
            return (entry, Verdict::Undecided);
        }
        let entry = Entry::subgoal(found.state, found.successor, found.target);
        if is_initial(&self.case, found.state) {
            (entry, Verdict::BrokenByEntry)
        } else {
            (entry, Verdict::Undecided)
        }
    }

    // Stores an entry in the next place, with a verdict.
    #[tactic(auto, using(crate::proofs::Storing::stored))]
    pub(crate) fn store(&mut self, book: &mut [Entry], entry: Entry, verdict: Verdict)
        requires place { self.old.used < self.old.places }
        requires size { length book.old ≡ self.old.places }
        ensures work { self.new ≡ record { system = self.old.system; places = self.old.places; used = self.old.used + 1; verdict = verdict } }
        ensures book { book.new ≡ written book.old self.old.used (entry ∷ []) }
    {
        book[self.used] = entry;
        self.used += 1;
        self.verdict = verdict;
    }
}
