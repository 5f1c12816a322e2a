// Faults of the work over a case and its candidates.
ghost use Rattle.std.specs.Prelude.{◌≡◌};
ghost use Rattle.faults.specs.declared.work.WorkFault.TheVariants.{InCase, InCandidates};

use crate::case::CaseFault;
use crate::clause::ClauseFault;
use crate::fault::Fault;
use crate::refusal::Refusal;

// A fault of the case, a fault inside a candidate clause, one candidate too many (with the index of its length byte),
// no clause, entry or state of the number that was given, a book of too many places, marks of the wrong number (with 0)
// or one that is neither 0 nor 1 (with its number), a verdict that was given already, a book of another size than at
// opening, no free place, an entry against the rules (with its number), a solver with too little capacity, or no run to
// read since the verdict is not broken.
#[derive(Clone, Copy, PartialEq, Eq, Debug)]
pub enum WorkFault {
    InCase(CaseFault),
    InCandidates(ClauseFault),
    TooManyCandidates(usize),
    NoSuchClause(usize),
    NoSuchEntry(usize),
    NoSuchState(usize),
    TooManyPlaces,
    Marks(usize),
    Decided,
    BookSize,
    NoPlace,
    AgainstRules(usize),
    NoCapacity,
    NotBroken,
}

impl From<CaseFault> for WorkFault {
    ghost from_gives = { λ x y. y ≡ InCase x };

    fn from(fault: CaseFault) -> WorkFault {
        Self::InCase(fault)
    }
}

impl From<ClauseFault> for WorkFault {
    ghost from_gives = { λ x y. y ≡ InCandidates x };

    fn from(fault: ClauseFault) -> WorkFault {
        Self::InCandidates(fault)
    }
}

impl Fault for WorkFault {
    ghost use Rattle.faults.specs.Refusals.{work_refusal};

    ghost refusal = { work_refusal };

    fn refusal(&self) -> Refusal {
        match self {
            WorkFault::InCase(fault) => fault.refusal(),
            WorkFault::InCandidates(fault) => fault.refusal(),
            WorkFault::TooManyCandidates(at) => Refusal::new(3, 21, *at),
            WorkFault::NoSuchClause(given)
            | WorkFault::NoSuchEntry(given)
            | WorkFault::NoSuchState(given) => Refusal::new(3, 31, *given),
            WorkFault::TooManyPlaces => Refusal::new(3, 32, 0),
            WorkFault::Marks(at) => Refusal::new(3, 33, *at),
            WorkFault::Decided => Refusal::new(3, 41, 0),
            WorkFault::BookSize => Refusal::new(3, 42, 0),
            WorkFault::NoPlace => Refusal::new(3, 43, 0),
            WorkFault::AgainstRules(entry) => Refusal::new(3, 44, *entry),
            WorkFault::NoCapacity => Refusal::new(3, 45, 0),
            WorkFault::NotBroken => Refusal::new(3, 46, 0),
        }
    }
}
