// Sifting candidates: a place is a candidate, and marks are closed where the marked candidates, all met with the held
// clauses before a step, are all true after it.
ghost use Rattle.std.specs.Prelude.{◌≡◌, length};
ghost use Rattle.solver.specs.Answers.{need_of};
ghost use Rattle.candidate_sieve.specs.Candidates.{TogetherClosed};
ghost use Rattle.candidate_sieve.specs.Laws.{none_closed, union_closed};

use crate::candidates::CandidateSieve;
use crate::questions::{add_marked, find_broken, settle};
use clauses::MOST_CANDIDATES;
use faults::WorkFault;
use loading::need;
use sieve::{Sieve, Sifting, check};
use solver::{Capacity, Solver};

impl<'a> Sieve for CandidateSieve<'a> {
    const MOST: usize = MOST_CANDIDATES;

    ghost limit = { 512 };

    ghost places = { λ s. length s };

    ghost closed = { TogetherClosed };

    ghost need = { need_of };

    fn limit() -> usize
        ensures { result ≡ 512 }
    {
        Self::MOST
    }

    fn places(&self) -> usize {
        self.list.len()
    }

    fn need(&self) -> Capacity {
        need(self.list)
    }

    fn sift<S: Solver>(&self, solver: &mut S, marks: &mut [u8]) -> Result<Sifting, WorkFault> {
        check(self.places(), self.need(), solver, marks)?;
        let held = solver.clauses_held();
        add_marked(solver, self.list, marks);
        let broken = find_broken(solver, self.list, marks);
        solver.cut(held);
        Ok(settle(self.list, broken, marks))
    }

    ghost none_closed = { none_closed };

    ghost union_closed = { union_closed };
}

// no definition can be tied to the constant itself where the type has a lifetime
const _: () = prove!(<CandidateSieve<'static> as Sieve>::MOST == 512);
