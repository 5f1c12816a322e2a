// What the tables share: writing over bytes, what reading says, a case that is read, and a solver that is loaded with it.
use cases::Case;
use keeping::{Engine, Keeping};
use loading::load_case;
use samples::{Said, said};
use solver::Capacity;
use std::alloc::Global;
use std::test::Fail;

// Writes the values over the bytes from the index on.
pub fn put(bytes: &mut [u8], at: usize, values: &[u8]) {
    for (byte, value) in bytes.iter_mut().skip(at).zip(values) {
        *byte = *value;
    }
}

// What reading says of the bytes as a case.
pub fn read_says(heap: Global, bytes: &[u8]) -> Said {
    said(Case::read(heap, bytes).map(|_case| ()))
}

// The case of bytes that are accepted.
pub fn case_of(heap: Global, bytes: &[u8]) -> Result<Case, Fail> {
    Case::read(heap, bytes).map_err(|_| Fail::new("refused"))
}

// A solver with this room that was loaded with the case.
pub fn loaded<E: Engine>(heap: Global, room: Capacity, case: &Case) -> Result<Keeping<E>, Fail> {
    let mut solver = Keeping::<E>::new(heap, room)?;
    load_case(&mut solver, case).map_err(|_| Fail::new("no capacity"))?;
    Ok(solver)
}
