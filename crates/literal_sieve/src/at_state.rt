// The sieve of the literals of a case that are false at a state.
ghost use Rattle.std.specs.Prelude.{◌≡◌, ◌≤◌, take};
ghost use Rattle.literal_sieve.specs.Literal.{false_at, ClauseClosed, need, ClosedIsConsecution};
ghost use Rattle.literal_sieve.specs.Laws.{none_closed, union_closed};

use crate::asking::ask;
use crate::literals::{state_before, unmark_differing, write_literals};
use cases::Case;
use faults::WorkFault;
use sieve::{Sieve, Sifting, check};
use solver::{Answer, Capacity, Solver};
use std::marker::Model;

// Its places are the relays of a case. A marked relay stands for its literal that is false at the state, of which the bits
// above the relays do not count.
#[derive(Clone, Copy)]
pub struct LiteralSieve {
    relays: u32,
    state: u32,
}

impl Model for LiteralSieve {
    ghost use Rattle.std.specs.Prelude.{◌≤◌};
    ghost use Rattle.literal_sieve.specs.Literal.{AtState};

    ghost Value = { AtState };

    ghost view = { λ s. record { n = s.relays; state = s.state } };

    ghost invariant = { λ s. s.relays ≤ 32 };

    ghost inverse = { λ v. record { relays = v.n; state = v.state } };
}

impl LiteralSieve {
    // The sieve of a case at a state. Where a solver holds the case's step clauses, its safety clauses and further ones over
    // its relays, marks are closed exactly where their clause is true after every step from a state that meets it, the
    // safety clauses and the further ones.
    pub fn new(case: &Case, state: u32) -> LiteralSieve
        ensures value { result ≡ record { n = case.now.n; state = state } }
        ensures consecution { ClosedIsConsecution case.now state (⟦<LiteralSieve as Sieve>⟧.closed result) }
    {
        let relays = case.relays();
        LiteralSieve { relays, state }
    }

    // Writes the clause of the marked relays' literals that are false at the state, and says how many these are. Places past
    // the marks are not marked, and marks past the relays do not count.
    #[tactic(auto, using(crate::proofs::Written::clause_written))]
    pub fn write_clause(&self, marks: &[u8], out: &mut [u8; 32]) -> usize
        ensures value { take result out.new ≡ false_at self.now.n self.now.state marks.now }
        ensures bound { result ≤ 32 }
    {
        let count = marks.len().min(self.places());
        write_literals(&marks[..count], self.state, 0, false, out)
    }
}

impl Sieve for LiteralSieve {
    const MOST: usize = 32;

    ghost limit = { 32 };

    ghost places = { λ s. s.n };

    ghost closed = { ClauseClosed };

    ghost need = { need };

    fn limit() -> usize {
        Self::MOST
    }

    fn places(&self) -> usize {
        // stays a cast: no From leads from a u32 to a usize
        self.relays as usize
    }

    fn need(&self) -> Capacity {
        Capacity {
            clauses: 1,
            literals: self.places(),
        }
    }

    // Asks for a step that the marked clause is true before and false after.
    fn sift<S: Solver>(&self, solver: &mut S, marks: &mut [u8]) -> Result<Sifting, WorkFault> {
        check(self.places(), self.need(), solver, marks)?;
        let mut clause = [0; 32];
        let count = write_literals(marks, self.state, 0, false, &mut clause);
        let mut assumed = [0; 32];
        let negated = write_literals(marks, self.state, 32, true, &mut assumed);
        match ask(solver, &clause[..count], &assumed[..negated]) {
            Answer::No => Ok(Sifting::Closed),
            Answer::Yes(low, _) => {
                unmark_differing(marks, self.state, state_before(low));
                Ok(Sifting::Fewer)
            }
        }
    }

    ghost none_closed = { none_closed };

    ghost union_closed = { union_closed };
}

const _: () = prove!(<LiteralSieve as Sieve>::MOST == 32);
