// Reads clauses off the front of bytes.
ghost use Rattle.std.specs.Prelude.{◌≡◌, drop, Some, MatchResult};
ghost use Rattle.clauses.specs.Reading.{clauses_fault};
ghost use Rattle.clauses.specs.Read.{ClausesOff};

use crate::scope::Scope;
use crate::section::Section;
use faults::ClauseFault;
use lists::ClauseList;

// Reads so many clauses from byte at on: the list of them and the bytes that follow it, or the first fault.
pub fn read_clauses<'a>(
    scope: Scope,
    count: usize,
    bytes: &'a [u8],
    at: usize,
) -> Result<(ClauseList<'a>, &'a [u8]), ClauseFault>
    ensures { MatchResult result (λ p. ClausesOff scope count at (drop at bytes.now) p.0 p.1.now) (λ f. clauses_fault scope count at (drop at bytes.now) ≡ Some f) }
{
    Section::from_index(bytes, at).take_clauses(scope, count)
}
