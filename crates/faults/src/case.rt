// Faults of a whole case.
ghost use Rattle.std.specs.Prelude.{◌≡◌};
ghost use Rattle.faults.specs.declared.case.CaseFault.TheVariants.{InClause, NoMemory};

use crate::clause::ClauseFault;
use crate::fault::Fault;
use crate::refusal::Refusal;
use std::alloc::AllocError;

// The three clause lists of a system.
#[derive(Clone, Copy, PartialEq, Eq, Debug)]
pub enum ListName {
    Start,
    Step,
    Safety,
}

impl ListName {
    ghost use Rattle.faults.specs.Refusals.{count_place, offset_place};

    // Where the header has the count of the list.
    pub fn count_place(self) -> usize
        ensures { result ≡ count_place self }
    {
        match self {
            ListName::Start => 4,
            ListName::Step => 6,
            ListName::Safety => 8,
        }
    }

    // Where the header says that the list begins.
    pub fn offset_place(self) -> usize
        ensures { result ≡ offset_place self }
    {
        match self {
            ListName::Start => 10,
            ListName::Step => 12,
            ListName::Safety => 14,
        }
    }
}

// Too few bytes for a header (with their count), a number of the header out of bounds, a section that does not begin
// where the header says, a fault inside a clause, bytes after the last section (with the index of the first), or no
// memory to keep the bytes in, which is no fault of theirs and has the number 0.
#[derive(Clone, Copy, PartialEq, Eq, Debug)]
pub enum CaseFault {
    Short(usize),
    Relays,
    Inputs,
    Count(ListName),
    Total,
    Offset(ListName),
    InClause(ClauseFault),
    LeftOver(usize),
    NoMemory,
}

impl From<ClauseFault> for CaseFault {
    ghost from_gives = { λ x y. y ≡ InClause x };

    fn from(fault: ClauseFault) -> CaseFault {
        Self::InClause(fault)
    }
}

impl From<AllocError> for CaseFault {
    ghost from_gives = { λ _ y. y ≡ NoMemory };

    fn from(_error: AllocError) -> CaseFault {
        Self::NoMemory
    }
}

impl Fault for CaseFault {
    ghost use Rattle.faults.specs.Refusals.{case_refusal};

    ghost refusal = { case_refusal };

    fn refusal(&self) -> Refusal {
        match self {
            CaseFault::Short(count) => Refusal::new(2, 11, *count),
            CaseFault::Relays => Refusal::new(2, 12, 0),
            CaseFault::Inputs => Refusal::new(2, 13, 2),
            CaseFault::Count(list) => Refusal::new(2, 14, list.count_place()),
            CaseFault::Total => Refusal::new(2, 15, 16),
            CaseFault::Offset(list) => Refusal::new(2, 16, list.offset_place()),
            CaseFault::InClause(fault) => fault.refusal(),
            CaseFault::LeftOver(at) => Refusal::new(2, 20, *at),
            CaseFault::NoMemory => Refusal::new(2, 0, 0),
        }
    }
}
