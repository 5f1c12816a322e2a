// Why nothing was asked, and the number of it for C.
ghost use Rattle.std.specs.Prelude.{◌≡◌};
ghost use Rattle.exported.specs.declared.fault.AskFault.TheVariants.{NoMemory, NoCapacity};
ghost use Rattle.exported.specs.Codes.{code};

use solver::NoCapacity;
use std::alloc::AllocError;

// There was no memory, or the clauses did not all fit.
#[derive(Clone, Copy, PartialEq, Eq, Debug)]
pub(crate) enum AskFault {
    NoMemory,
    NoCapacity,
}

impl From<AllocError> for AskFault {
    ghost from_gives = { λ _ fault. fault ≡ NoMemory };

    fn from(_error: AllocError) -> AskFault {
        AskFault::NoMemory
    }
}

impl From<NoCapacity> for AskFault {
    ghost from_gives = { λ _ fault. fault ≡ NoCapacity };

    fn from(_error: NoCapacity) -> AskFault {
        AskFault::NoCapacity
    }
}

// What the calls answer to C: 0 where all was asked, 1 without memory, and 2 where the clauses did not all fit. It
// stays a function: no From leads from a result to a number.
pub(crate) fn code_of(asked: Result<(), AskFault>) -> u32
    ensures { result ≡ code asked }
{
    match asked {
        Ok(()) => 0,
        Err(AskFault::NoMemory) => 1,
        Err(AskFault::NoCapacity) => 2,
    }
}
