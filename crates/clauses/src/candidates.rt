// Reads a list of candidate clauses: clauses over relays before a step, without a header, up to the end of the bytes.
ghost use Rattle.std.specs.Prelude.{◌≡◌};
ghost use Rattle.clauses.specs.Candidates.{gathered, read_candidates, ReadAsSpelled};

use crate::scope::Scope;
use crate::section::Section;
use faults::WorkFault;
use lists::ClauseList;

// How many candidates a list has at most.
pub const MOST_CANDIDATES: usize = 512;

// The candidates in the bytes, over so many relays. A fault inside any clause comes before one candidate too many. What
// is accepted is what spells such a list, and it is read as spelled.
#[tactic(auto, using(crate::proofs::CandidateLaw::gathering))]
pub fn read_candidates<'a>(relays: u32, bytes: &'a [u8]) -> Result<ClauseList<'a>, WorkFault>
    ensures value { gathered result ≡ read_candidates relays bytes.now }
    ensures law { ReadAsSpelled relays bytes.now result }
{
    let mut rest = Section::from_index(bytes, 0);
    let mut count = 0;
    let mut extra = None;
    // stays a while: only the end of the bytes tells how many there are
    while !rest.is_empty() {
        if count == MOST_CANDIDATES {
            extra = Some(rest.at());
        }
        rest.take_clause(Scope::Before(relays))?;
        count += 1;
    }
    match extra {
        Some(at) => Err(WorkFault::TooManyCandidates(at)),
        None => Ok(ClauseList::over(count, bytes)),
    }
}
