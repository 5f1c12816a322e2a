// Reading a case.
ghost use Rattle.cases.specs.Meaning.{Read, ReadAsSpelled};

use crate::case::Case;
use faults::CaseFault;
use layout::check_case;
use std::alloc::Global;

impl Case {
    // Reads a case: its system, or its first fault. What is accepted is what spells a system, and it is read as spelled.
    // The bytes are kept in memory of the case's own, which only bytes without a fault are given.
    #[tactic(auto, using(crate::proofs::Promises::kept))]
    pub fn read(heap: Global, bytes: &[u8]) -> Result<Case, CaseFault>
        ensures value { Read bytes.now result }
        ensures law { ReadAsSpelled bytes.now result }
    {
        check_case(bytes)?;
        let kept = Vec::from_slice(heap, bytes)?;
        Ok(Case { bytes: kept })
    }
}
