// Descents of candidates that relays are off, up to as many candidates and relays as there may be.
use crate::moves::{Moves, marks_of, moving_case};
use candidate_sieve::CandidateSieve;
use cases::Case;
use counting::Counter;
use keeping::{Engine, Keeping};
use loading::load_case;
use samples::off_candidates;
use search::Search;
use sieve::descend;
use solver::{Capacity, Solver};
use std::alloc::Global;
use std::test::Fail;

// The relays that are kept and those that become as the next one was; the marks given and those at the end, a bit for each
// relay. The candidates are that a relay is off, for each in turn and then again from the first.
type Row = (u32, u32, u32, u32);

const FOUR_ROWS: [Row; 11] = [
    // where every step is possible none stays, and where relays are kept just these
    (0, 0, 15, 0),
    (0, 0, 8, 0),
    (15, 0, 15, 15),
    (15, 0, 9, 9),
    (5, 0, 15, 5),
    (5, 0, 12, 4),
    // in a ring all stay, and none without one of them
    (0, 15, 15, 15),
    (0, 15, 13, 0),
    // in a row that ends in an open relay none stays, and in one that ends in a kept relay those from which on all are marked
    (0, 7, 15, 0),
    (8, 7, 15, 15),
    (8, 7, 13, 12),
];

const ALL: u32 = 0xffff_ffff;

// The same with all 32 relays.
const ALL_ROWS: [Row; 12] = [
    (0, 0, ALL, 0),
    (0, 0, 0x8000_0000, 0),
    (0, 0, 0, 0),
    (ALL, 0, ALL, ALL),
    (ALL, 0, 0xdead_beef, 0xdead_beef),
    (0x5555_5555, 0, ALL, 0x5555_5555),
    (0x8000_0000, 0, ALL, 0x8000_0000),
    (0, ALL, ALL, ALL),
    (0, ALL, 0xfffe_ffff, 0),
    (0, 0x7fff_ffff, ALL, 0),
    (0x8000_0000, 0x7fff_ffff, ALL, ALL),
    (0x8000_0000, 0x7fff_ffff, 0xffef_ffff, 0xffe0_0000),
];

// Room for two step clauses of two literals for each of the relays, and for eight and for 512 candidates of one.
const FOUR_ROOM: Capacity = Capacity {
    clauses: 16,
    literals: 24,
};

const ALL_ROOM: Capacity = Capacity {
    clauses: 576,
    literals: 640,
};

// The marks at the end.
pub fn descended<S: Solver>(
    heap: Global,
    solver: &mut S,
    case: &[u8],
    listed: &[u8],
    mut marks: Vec<u8>,
) -> Option<Vec<u8>> {
    let case = Case::read(heap, case).ok()?;
    load_case(solver, &case).ok()?;
    let sieve = CandidateSieve::read(&case, listed).ok()?;
    descend(&sieve, solver, marks.as_mut_slice()).ok()?;
    Some(marks)
}

// Whether so many candidates that relays are off end as the row says.
fn descends<S: Solver>(
    heap: Global,
    solver: &mut S,
    relays: u8,
    count: usize,
    row: &Row,
) -> Option<bool> {
    let (kept, moved, given, end) = *row;
    let case = moving_case(heap, relays, Moves { kept, moved })?;
    let listed = off_candidates(heap, relays, count)?;
    let marks = marks_of(heap, relays, given, count)?;
    let expected = marks_of(heap, relays, end, count)?;
    let ended = descended(heap, solver, case.as_slice(), listed.as_slice(), marks)?;
    Some(ended == expected)
}

// The first row that ends otherwise, of a solver with this room.
fn first_wrong<E: Engine>(
    heap: Global,
    room: Capacity,
    relays: u8,
    count: usize,
    rows: &[Row],
) -> Result<Option<usize>, Fail> {
    let mut solver = Keeping::<E>::new(heap, room)?;
    Ok(rows.iter().position(|row| descends(heap, &mut solver, relays, count, row) != Some(true)))
}

#[test]
fn counting_descends(rt: HostRuntime) -> Result<(), Fail> {
    let heap = rt.alloc();
    assert_eq!(rt;
        first_wrong::<Counter>(heap, FOUR_ROOM, 4, 8, &FOUR_ROWS)?,
        None
    );
    Ok(())
}

#[test]
fn propagating_descends(rt: HostRuntime) -> Result<(), Fail> {
    let heap = rt.alloc();
    assert_eq!(rt;
        first_wrong::<Search>(heap, FOUR_ROOM, 4, 8, &FOUR_ROWS)?,
        None
    );
    assert_eq!(rt;
        first_wrong::<Search>(heap, ALL_ROOM, 32, 512, &ALL_ROWS)?,
        None
    );
    Ok(())
}
