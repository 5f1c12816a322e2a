// What a call comes to, as a number for C.
ghost use Rattle.std.specs.Prelude.{◌≡◌};
ghost use Rattle.descents.specs.Codes.{code};

use faults::{Fault, WorkFault};

// 0 where the marks were descended, else the number of the refusal; want of memory, which has no number, is 1.
pub(crate) fn code_of(descended: Result<(), WorkFault>) -> u32
    ensures { result ≡ code descended }
{
    match descended {
        Ok(()) => 0,
        Err(fault) => fault.error_code(),
    }
}
