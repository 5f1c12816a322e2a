// Looks a case through: header, the three sections, and nothing after them.
ghost use Rattle.std.specs.Prelude.{◌≡◌, Some, MatchResult};
ghost use Rattle.faults.specs.Firsts.{unless};
ghost use Rattle.layout.specs.Reading.{section_fault, case_fault};
ghost use Rattle.layout.specs.Sections.{SectionPassed};
ghost use Rattle.layout.specs.Spelling.{AcceptedAsSpelled, SpelledOnce};

use crate::header::{HEADER, Header, Section};
use clauses::read_clauses;
use faults::CaseFault;

impl Section {
    // Looks the section through, which is to begin at byte at: the index of the first byte after it.
    fn check(self, bytes: &[u8], at: usize) -> Result<usize, CaseFault>
        ensures { MatchResult result (λ next. SectionPassed self at bytes.now next) (λ f. section_fault self.list self.at self.scope self.count at bytes.now ≡ Some f) }
    {
        if self.at != at {
            return Err(CaseFault::Offset(self.list));
        }
        let (_, after) = read_clauses(self.scope, self.count, bytes, at)?;
        Ok(bytes.len() - after.len())
    }
}

// Looks for the first fault of a case. Bytes without one are exactly those that spell an admitted system, and no two
// admitted systems are spelled alike.
pub fn check_case(bytes: &[u8]) -> Result<(), CaseFault>
    ensures value { result ≡ unless (case_fault bytes.now) tt }
    ensures law { AcceptedAsSpelled bytes.now result }
    ensures once { SpelledOnce }
{
    check_parts(bytes)
}

// Looks for the first fault of a case, part by part.
fn check_parts(bytes: &[u8]) -> Result<(), CaseFault>
    ensures { result ≡ unless (case_fault bytes.now) tt }
{
    let header = Header::read(bytes)?;
    let step_at = header.start.check(bytes, HEADER)?;
    let safety_at = header.step.check(bytes, step_at)?;
    let end = header.safety.check(bytes, safety_at)?;
    if end != bytes.len() {
        return Err(CaseFault::LeftOver(end));
    }
    Ok(())
}
