// Takings.
ghost use Rattle.std.specs.Prelude.{◌≡◌, ◌+◌, ◌≤◌, [], ◌∷◌, length, None, Ok};
ghost use Rattle.lists.specs.Lists.{clauses_of};
ghost use Rattle.layout.specs.Spelling.{Admitted};
ghost use Rattle.clauses.specs.Candidates.{read_candidates, CandidateList};
ghost use Rattle.candidate_sieve.specs.Candidates.{chosen};
ghost use Rattle.taking.specs.Taking.{taken_entries};
ghost use Rattle.histories.specs.Calls.{checked, written, Took};
ghost use Rattle.histories.specs.declared.verdict.Verdict.TheVariants.{Undecided};
ghost use Rattle.histories.specs.Laws.{OnlyTaking};
ghost use Rattle.histories.specs.Promises.{TakingPromises};

use crate::account::Account;
use crate::work::Work;
use books::{Entry, Kind};
use candidate_sieve::CandidateSieve;
use faults::WorkFault;
use histories::Verdict;
use lists::ClauseList;
use solver::Solver;
use taking::choose;

impl Work {
    // Takes from the candidates that the bytes spell the largest set that is inductive together relative to the book, and
    // stores it in list order. Refused are, in order, what a turn is refused for, what reading the candidates refuses, and
    // more of them than there are free places; all but the last leave everything as it was, and the last wipes the solver. The
    // solver holds nothing afterwards.
    pub fn take<S: Solver>(
        &mut self,
        solver: &mut S,
        book: &mut [Entry],
        bytes: &[u8],
    ) -> Result<(), WorkFault>
        ensures took { Took (S.Solver.capacity solver.old) (record { work = self.old; book = book.old; held = S.Solver.held solver.old }) (read_candidates self.old.system.n bytes.now) result (record { work = self.new; book = book.new; held = S.Solver.held solver.new }) }
        ensures promises { TakingPromises (record { work = self.old; book = book.old; held = S.Solver.held solver.old }) bytes.now result (record { work = self.new; book = book.new; held = S.Solver.held solver.new }) }
        ensures only { OnlyTaking (S.Solver.capacity solver.old) (record { work = self.old; book = book.old; held = S.Solver.held solver.old }) (read_candidates self.old.system.n bytes.now) result (record { work = self.new; book = book.new; held = S.Solver.held solver.new }) }
        ensures capacity { S.Solver.capacity solver.new ≡ S.Solver.capacity solver.old }
    {
        self.account.take(solver, book, bytes)
    }
}

impl Account {
    // The taking, by what it does.
    fn take<S: Solver>(
        &mut self,
        solver: &mut S,
        book: &mut [Entry],
        bytes: &[u8],
    ) -> Result<(), WorkFault>
        ensures took { Took (S.Solver.capacity solver.old) (record { work = self.old; book = book.old; held = S.Solver.held solver.old }) (read_candidates self.old.system.n bytes.now) result (record { work = self.new; book = book.new; held = S.Solver.held solver.new }) }
        ensures admitted { Admitted self.old.system }
        ensures capacity { S.Solver.capacity solver.new ≡ S.Solver.capacity solver.old }
    {
        self.check(solver, book)?;
        let candidates = CandidateSieve::read(&self.case, bytes)?;
        self.take_among(solver, book, &candidates)
    }

    // The taking of candidates that were read, after the checks.
    fn take_among<S: Solver>(
        &mut self,
        solver: &mut S,
        book: &mut [Entry],
        candidates: &CandidateSieve,
    ) -> Result<(), WorkFault>
        requires checked { checked (S.Solver.capacity solver.old) (record { work = self.old; book = book.old; held = S.Solver.held solver.old }) ≡ None }
        requires listed { CandidateList self.old.system.n candidates.now }
        ensures took { Took (S.Solver.capacity solver.old) (record { work = self.old; book = book.old; held = S.Solver.held solver.old }) (Ok candidates.now) result (record { work = self.new; book = book.new; held = S.Solver.held solver.new }) }
        ensures capacity { S.Solver.capacity solver.new ≡ S.Solver.capacity solver.old }
    {
        let mut marks = [0; 512];
        choose(
            solver,
            &self.case,
            &book[..self.used],
            candidates,
            &mut marks,
        );
        let list = candidates.candidates();
        if count_marked(list, &marks) > self.places - self.used {
            return Err(WorkFault::NoPlace);
        }
        self.store_marked(book, list, &marks);
        Ok(())
    }
}

// How many of the candidates are marked.
fn count_marked(list: ClauseList, marks: &[u8]) -> usize
    requires { length (clauses_of list) ≤ 512 }
    ensures { result ≡ length (chosen marks.now (clauses_of list.entry)) }
{
    let mut count = 0;
    for (_, mark) in list.zip(marks) {
        count += usize::from(*mark == 1);
    }
    count
}

impl Account {
    // Stores the marked candidates in list order, for which there are places.
    fn store_marked(&mut self, book: &mut [Entry], list: ClauseList, marks: &[u8])
        requires undecided { self.old.verdict ≡ Undecided }
        requires places { self.old.used + length (chosen marks.now (clauses_of list)) ≤ self.old.places }
        requires size { length book.old ≡ self.old.places }
        ensures work { self.new ≡ record { system = self.old.system; places = self.old.places; used = self.old.used + length (chosen marks.now (clauses_of list.entry)); verdict = Undecided } }
        ensures book { book.new ≡ written book.old self.old.used (taken_entries (clauses_of list.entry) marks.now) }
    {
        for (candidate, mark) in list.zip(marks) {
            self.store_if_marked(book, candidate, *mark);
        }
    }

    // Stores a candidate if it is marked, where there is a place for it.
    fn store_if_marked(&mut self, book: &mut [Entry], candidate: &[u8], mark: u8)
        requires undecided { self.old.verdict ≡ Undecided }
        requires places { self.old.used + length (chosen (mark ∷ []) (candidate.now ∷ [])) ≤ self.old.places }
        requires size { length book.old ≡ self.old.places }
        ensures work { self.new ≡ record { system = self.old.system; places = self.old.places; used = self.old.used + length (chosen (mark ∷ []) (candidate.now ∷ [])); verdict = Undecided } }
        ensures book { book.new ≡ written book.old self.old.used (taken_entries (candidate.now ∷ []) (mark ∷ [])) }
    {
        if mark == 1 {
            let entry = Entry::of_clause(Kind::Taken, candidate);
            self.store(book, entry, Verdict::Undecided);
        }
    }
}
