// What calls say, as tuples, and how much a solver holds.
use faults::Fault;
use solver::Solver;

// Layer, number and place of a refusal: a tuple, since a struct in each row would hide the numbers.
pub type Refused = (u32, u32, usize);

// What a call says that answers nothing.
pub type Said = Result<(), Refused>;

// Nothing is refused.
pub const ACCEPTED: Said = Ok(());

// The solver has too little room.
pub const NO_ROOM: Said = Err((3, 45, 0));

// What a fault tells of itself.
pub fn refused(fault: &impl Fault) -> Refused {
    (fault.layer(), fault.number(), fault.place())
}

// What is said of an answer.
pub fn said<T, F: Fault + Drop>(answer: Result<T, F>) -> Result<T, Refused> {
    answer.map_err(|fault| refused(&fault))
}

// How many clauses and literals the solver holds.
pub fn held<S: Solver>(solver: &S) -> (usize, usize) {
    (solver.clauses_held(), solver.literals_held())
}
