// Bytes from which clauses are taken off the front.
ghost use Rattle.std.specs.Prelude.{◌≡◌, ◌+◌, ◌^◌, ◌<◌, length, drop, IsTrue, ◌↔◌, Some, MatchResult};
ghost use Rattle.faults.specs.Firsts.{unless};
ghost use Rattle.clauses.specs.Reading.{literals_fault, clause_fault, clauses_fault};
ghost use Rattle.clauses.specs.Read.{ClauseOff, ClausesOff};

use crate::scope::Scope;
use faults::ClauseFault;
use lists::ClauseList;

// Bytes that are still to be read, and the index of the first of them.
#[derive(Clone, Copy)]
pub(crate) struct Section<'a> {
    at: usize,
    bytes: &'a [u8],
    ghost small: { at + length bytes.now < 2 ^ 64 },
}

impl<'a> Section<'a> {
    // The bytes from an index on.
    pub(crate) fn from_index(bytes: &'a [u8], at: usize) -> Section<'a>
        ensures at { result.at ≡ at }
        ensures bytes { result.bytes.now ≡ drop at bytes.now }
    {
        let (_, bytes) = bytes.split_at(at.min(bytes.len()));
        Section { at, bytes }
    }

    // The index of the first byte.
    pub(crate) fn at(&self) -> usize
        ensures { result ≡ self.now.at }
    {
        self.at
    }

    // Whether no byte is left.
    pub(crate) fn is_empty(&self) -> bool
        ensures { IsTrue result ↔ (length self.now.bytes.now ≡ 0) }
    {
        self.bytes.is_empty()
    }

    // Looks through the literals of a clause.
    fn check_literals(&self, scope: Scope) -> Result<(), ClauseFault>
        ensures { result ≡ unless (literals_fault scope self.now.at 0 self.now.bytes.now) tt }
    {
        let mut low = 0;
        for (i, literal) in self.bytes.iter().enumerate() {
            low = scope.check_literal(self.at + i, low, *literal)?;
        }
        Ok(())
    }

    // Takes the first clause off: its literals.
    pub(crate) fn take_clause(&mut self, scope: Scope) -> Result<&'a [u8], ClauseFault>
        ensures off { MatchResult result (λ d. ClauseOff scope self.old.at self.old.bytes.now d.now self.new.bytes.now) (λ f. clause_fault scope self.old.at self.old.bytes.now ≡ Some f) }
        ensures end { self.new.at + length self.new.bytes.now ≡ self.old.at + length self.old.bytes.now }
    {
        let past_end = ClauseFault::PastEnd(self.at);
        let (len, rest) = self.bytes.split_first().ok_or(past_end)?;
        let len = usize::from(*len);
        let (literals, after) = rest.split_at_checked(len).ok_or(past_end)?;
        let clause = Section {
            at: self.at + 1,
            bytes: literals,
        };
        clause.check_literals(scope)?;
        *self = Section {
            at: self.at + 1 + len,
            bytes: after,
        };
        Ok(literals)
    }

    // Takes so many clauses off: the list of them, and what follows it.
    #[tactic(auto, using(crate::proofs::Found::midway_fault))]
    pub(crate) fn take_clauses(
        self,
        scope: Scope,
        count: usize,
    ) -> Result<(ClauseList<'a>, &'a [u8]), ClauseFault>
        ensures { MatchResult result (λ p. ClausesOff scope count self.entry.at self.entry.bytes.now p.0 p.1.now) (λ f. clauses_fault scope count self.entry.at self.entry.bytes.now ≡ Some f) }
    {
        let mut rest = self;
        for _ in 0..count {
            rest.take_clause(scope)?;
        }
        let (listed, after) = self.bytes.split_at(rest.at - self.at);
        Ok((ClauseList::over(count, listed), after))
    }
}
