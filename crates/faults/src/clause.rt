// Faults of one clause in bytes.
use crate::fault::Fault;
use crate::refusal::Refusal;

// The clause passes the end of the bytes (with the index of its length byte), a literal is not about a variable of its
// list, or its variable is not above that of the literal before it (with the index of the literal).
#[derive(Clone, Copy, PartialEq, Eq, Debug)]
pub enum ClauseFault {
    PastEnd(usize),
    Variable(usize),
    Order(usize),
}

impl Fault for ClauseFault {
    ghost use Rattle.faults.specs.Refusals.{clause_refusal};

    ghost refusal = { clause_refusal };

    fn refusal(&self) -> Refusal {
        match self {
            ClauseFault::PastEnd(at) => Refusal::new(1, 17, *at),
            ClauseFault::Variable(at) => Refusal::new(1, 18, *at),
            ClauseFault::Order(at) => Refusal::new(1, 19, *at),
        }
    }
}
