// Descents of the literals of TWO that are false at a state. There a safe state has relay 0 off, and after a step both relays
// are as relay 1 was: both off after neither was on, both on after relay 1 was on.
use crate::reading::{case_of, loaded};
use cases::Case;
use counting::Counter;
use keeping::Engine;
use literal_sieve::LiteralSieve;
use samples::TWO;
use search::Search;
use sieve::descend;
use solver::{Capacity, Solver};
use std::alloc::Global;
use std::test::Fail;

// Room for the step clauses and the safety clause of TWO, and one clause of two literals.
const ROOM: Capacity = Capacity {
    clauses: 6,
    literals: 11,
};

// The state, the marks given, and the marks at the end.
type Row = (u32, [u8; 2], [u8; 2]);

const ROWS: [Row; 24] = [
    // both off: relay 0 on is never met, and relay 1 on stays
    (0, [1, 1], [1, 1]),
    (0, [1, 0], [1, 0]),
    (0, [0, 1], [0, 1]),
    (0, [0, 0], [0, 0]),
    // relay 0 on: relay 0 off falls alone, and stays beside relay 1 on
    (1, [1, 1], [1, 1]),
    (1, [1, 0], [0, 0]),
    (1, [0, 1], [0, 1]),
    (1, [0, 0], [0, 0]),
    // relay 1 on: relay 0 on is never met, and relay 1 off stays
    (2, [1, 1], [1, 1]),
    (2, [1, 0], [1, 0]),
    (2, [0, 1], [0, 1]),
    (2, [0, 0], [0, 0]),
    // both on: relay 0 off falls, alone and beside relay 1 off
    (3, [1, 1], [0, 1]),
    (3, [1, 0], [0, 0]),
    (3, [0, 1], [0, 1]),
    (3, [0, 0], [0, 0]),
    // the same with bits from relay 2 on, which do not count
    (0xffff_fffc, [1, 1], [1, 1]),
    (0x0000_0004, [1, 0], [1, 0]),
    (0xffff_fffd, [1, 0], [0, 0]),
    (0x8000_0001, [1, 1], [1, 1]),
    (0xffff_fffe, [1, 0], [1, 0]),
    (0xffff_fffe, [1, 1], [1, 1]),
    (0xffff_ffff, [1, 1], [0, 1]),
    (0xffff_ffff, [1, 0], [0, 0]),
];

// Whether the descent from the marks given ends on those expected.
fn descends<S: Solver>(
    solver: &mut S,
    case: &Case,
    state: u32,
    given: [u8; 2],
    end: [u8; 2],
) -> bool {
    let sieve = LiteralSieve::new(case, state);
    let mut marks = given;
    descend(&sieve, solver, &mut marks).is_ok() && marks == end
}

// The first row that ends otherwise, of a solver that was loaded once.
fn first_wrong<E: Engine>(heap: Global) -> Result<Option<usize>, Fail> {
    let case = case_of(heap, &TWO)?;
    let mut solver = loaded::<E>(heap, ROOM, &case)?;
    Ok(
        ROWS.iter().position(|(state, given, end)| {
            !descends(&mut solver, &case, *state, *given, *end)
        }),
    )
}

#[test]
fn counting_descends(rt: HostRuntime) -> Result<(), Fail> {
    assert_eq!(rt; first_wrong::<Counter>(rt.alloc())?, None);
    Ok(())
}

#[test]
fn propagating_descends(rt: HostRuntime) -> Result<(), Fail> {
    assert_eq!(rt; first_wrong::<Search>(rt.alloc())?, None);
    Ok(())
}
