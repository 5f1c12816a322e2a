// The sieve of a list of candidates.
ghost use Rattle.std.specs.Prelude.{◌≡◌};
ghost use Rattle.lists.specs.Lists.{clauses_of};
ghost use Rattle.layout.specs.Spelling.{Admitted};
ghost use Rattle.clauses.specs.Candidates.{gathered, read_candidates as candidates_read, ReadAsSpelled};
ghost use Rattle.candidate_sieve.specs.Read.{TogetherIsConsecution};

use cases::Case;
use clauses::read_candidates;
use faults::WorkFault;
use lists::ClauseList;
use sieve::Sieve;
use std::marker::Model;

// A list of candidates that was read. A clause sees it as those clauses.
#[derive(Drop)]
pub struct CandidateSieve<'a> {
    pub(crate) list: ClauseList<'a>,
}

impl<'a> Model for CandidateSieve<'a> {
    ghost use Rattle.std.specs.Prelude.{ℕ, List};
    ghost use Rattle.lists.specs.Lists.{clauses_of};
    ghost use Rattle.clauses.specs.Candidates.{CandidateList};

    ghost Value = { List (List ℕ) };

    ghost view = { λ sieve. clauses_of sieve.list };

    ghost invariant = { λ sieve. CandidateList 32 (clauses_of sieve.list) };
}

// The list of the candidates in the bytes, over the relays of the case.
fn read_list<'a>(case: &Case, bytes: &'a [u8]) -> Result<ClauseList<'a>, WorkFault>
    ensures value { gathered result ≡ candidates_read case.now.n bytes.now }
    ensures law { ReadAsSpelled case.now.n bytes.now result }
    ensures admitted { Admitted case.now }
{
    read_candidates(case.relays(), bytes)
}

impl<'a> CandidateSieve<'a> {
    // The candidates in the bytes, over the relays of the case; refused is what reading the list refuses. Where a solver
    // holds the case's step clauses, its safety clauses and further ones over its relays, marks are closed exactly where
    // their clauses are all true after every step from a state that meets them all, the safety clauses and the further
    // ones.
    pub fn read(case: &Case, bytes: &'a [u8]) -> Result<CandidateSieve<'a>, WorkFault>
        ensures value { result ≡ candidates_read case.now.n bytes.now }
        ensures consecution { TogetherIsConsecution ⟦<CandidateSieve<'static> as Sieve>⟧.closed case.now result }
    {
        let list = read_list(case, bytes)?;
        Ok(CandidateSieve { list })
    }

    // The candidates in order.
    pub fn candidates(&self) -> ClauseList<'a>
        ensures { clauses_of result ≡ self.now }
    {
        self.list
    }
}
