// Descents of candidates over SWAP. As sets: marked candidates stay where each state that meets all of them is followed by
// one that does, with its two relays swapped.
use crate::reading::{case_of, loaded};
use candidate_sieve::CandidateSieve;
use cases::Case;
use counting::Counter;
use keeping::Engine;
use samples::SWAP;
use search::Search;
use sieve::descend;
use solver::{Capacity, Solver};
use std::alloc::Global;
use std::test::Fail;

// Room for the step clauses of SWAP and the longest list below.
const ROOM: Capacity = Capacity {
    clauses: 7,
    literals: 14,
};

// The candidates, the marks given, and the marks at the end.
type Row = (&'static [u8], &'static [u8], &'static [u8]);

// Relay 0 is off, relay 1 is off, relay 0 is on.
const THREE_CANDIDATES: &[u8] = &[1, 1, 1, 3, 1, 0];

const ROWS: [Row; 27] = [
    // true at the start: both off stays so
    (THREE_CANDIDATES, &[1, 1, 0], &[1, 1, 0]),
    // no state meets all three, so no step breaks them: those false at the start are to be unmarked first
    (THREE_CANDIDATES, &[1, 1, 1], &[1, 1, 1]),
    // only relay 0 on becomes only relay 1 on
    (THREE_CANDIDATES, &[0, 1, 1], &[0, 0, 0]),
    // no state has relay 0 off and on
    (THREE_CANDIDATES, &[1, 0, 1], &[1, 0, 1]),
    // each alone falls, and none stays
    (THREE_CANDIDATES, &[1, 0, 0], &[0, 0, 0]),
    (THREE_CANDIDATES, &[0, 1, 0], &[0, 0, 0]),
    (THREE_CANDIDATES, &[0, 0, 1], &[0, 0, 0]),
    (THREE_CANDIDATES, &[0, 0, 0], &[0, 0, 0]),
    (&[1, 1], &[1], &[0]),
    (&[1, 1], &[0], &[0]),
    // no candidates
    (&[], &[], &[]),
    // the empty clause is never met, so with it all stay
    (&[0], &[1], &[1]),
    (&[0, 1, 1], &[1, 1], &[1, 1]),
    (&[0, 1, 1], &[1, 0], &[1, 0]),
    (&[0, 1, 1], &[0, 1], &[0, 0]),
    // one that stands twice stays or falls at both places
    (&[1, 1, 1, 1], &[1, 1], &[0, 0]),
    (&[1, 1, 1, 3, 1, 1], &[1, 1, 1], &[1, 1, 1]),
    (&[1, 1, 1, 3, 1, 1], &[0, 1, 1], &[0, 1, 1]),
    (&[1, 1, 1, 3, 1, 1], &[1, 0, 1], &[0, 0, 0]),
    // one of the two is on: stays, also where relay 0 off, which was met with it, falls
    (&[2, 0, 2], &[1], &[1]),
    (&[1, 1, 2, 0, 2], &[1, 1], &[0, 1]),
    // one of the two is off: stays, also where relay 0 on falls
    (&[1, 0, 2, 1, 3], &[1, 1], &[0, 1]),
    // relay 1 is on where relay 0 is, and the other way round: stay together, and each alone falls
    (&[2, 1, 2, 2, 0, 3], &[1, 1], &[1, 1]),
    (&[2, 1, 2, 2, 0, 3], &[1, 0], &[0, 0]),
    (&[2, 1, 2, 2, 0, 3], &[0, 1], &[0, 0]),
    // with these, one of the two is off: both are; with the first of these alone relay 0 is off, which does not stay
    (&[2, 1, 2, 2, 1, 3, 2, 0, 3], &[1, 1, 1], &[1, 1, 1]),
    (&[2, 1, 2, 2, 1, 3, 2, 0, 3], &[1, 1, 0], &[0, 1, 0]),
];

// The marks at the end.
fn descended<S: Solver>(
    heap: Global,
    solver: &mut S,
    case: &Case,
    listed: &[u8],
    given: &[u8],
) -> Option<Vec<u8>> {
    let sieve = CandidateSieve::read(case, listed).ok()?;
    let mut marks = Vec::from_slice(heap, given).ok()?;
    descend(&sieve, solver, marks.as_mut_slice()).ok()?;
    Some(marks)
}

// The first row that ends otherwise, of a solver that was loaded once.
fn first_wrong<E: Engine>(heap: Global) -> Result<Option<usize>, Fail> {
    let case = case_of(heap, &SWAP)?;
    let mut solver = loaded::<E>(heap, ROOM, &case)?;
    Ok(
        ROWS.iter().position(|(listed, given, expected)| {
            !descended(heap, &mut solver, &case, listed, given).is_some_and(|marks| marks.as_slice()
                == *expected)
        }),
    )
}

#[test]
fn counting_descends(rt: HostRuntime) -> Result<(), Fail> {
    assert_eq!(rt; first_wrong::<Counter>(rt.alloc())?, None);
    Ok(())
}

#[test]
fn propagating_descends(rt: HostRuntime) -> Result<(), Fail> {
    assert_eq!(rt; first_wrong::<Search>(rt.alloc())?, None);
    Ok(())
}
