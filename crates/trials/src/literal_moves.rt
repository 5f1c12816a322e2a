// Descents of the literals of all relays that are false at a state, up to as many relays as there may be. A clause of them is
// true where one of the marked relays differs from the state.
use crate::moves::{Moves, marks_of, moving_case};
use cases::Case;
use counting::Counter;
use keeping::{Engine, Keeping};
use literal_sieve::LiteralSieve;
use loading::load_case;
use search::Search;
use sieve::descend;
use solver::{Capacity, Solver};
use std::alloc::Global;
use std::test::Fail;

// The relays that are kept and those that become as the next one was; the state, the marks given and those at the end, a bit
// for each relay.
type Row = (u32, u32, u32, u32, u32);

const FOUR_ROWS: [Row; 13] = [
    // where every step is possible none stays, and where relays are kept just these
    (0, 0, 0, 15, 0),
    (0, 0, 9, 4, 0),
    (0, 0, 15, 0, 0),
    (15, 0, 6, 15, 15),
    (15, 0, 6, 9, 9),
    (5, 0, 9, 15, 5),
    (5, 0, 0, 12, 4),
    // in a ring all stay, and none without one of them; where the relays of the state take turns, none stays
    (0, 15, 0, 15, 15),
    (0, 15, 15, 15, 15),
    (0, 15, 15, 13, 0),
    (0, 15, 5, 15, 0),
    // in a row that ends in an open relay none stays, and in one that ends in a kept relay just this: where only the first of
    // the marked relays differs, none of them does after the step
    (0, 7, 0, 15, 0),
    (8, 7, 0, 15, 8),
];

const ALL: u32 = 0xffff_ffff;

// The same with all 32 relays.
const ALL_ROWS: [Row; 22] = [
    (0, 0, 0, ALL, 0),
    (0, 0, ALL, ALL, 0),
    (0, 0, 0x1234_5678, 0x8000_0001, 0),
    (0, 0, 0xdead_beef, 0x8000_0000, 0),
    (0, 0, 5, 0, 0),
    (ALL, 0, 0, ALL, ALL),
    (ALL, 0, ALL, ALL, ALL),
    (ALL, 0, 0xdead_beef, ALL, ALL),
    (ALL, 0, 0xdead_beef, 0x8000_0001, 0x8000_0001),
    (ALL, 0, 0x8000_0000, 0, 0),
    (0x5555_5555, 0, 0, ALL, 0x5555_5555),
    (0xaaaa_aaaa, 0, 0x3333_3333, 0xffff_0000, 0xaaaa_0000),
    (0x8000_0000, 0, ALL, ALL, 0x8000_0000),
    (0x7fff_ffff, 0, 0x0f0f_0f0f, ALL, 0x7fff_ffff),
    (0x0000_0001, 0, 0x0000_0001, ALL, 0x0000_0001),
    (0, ALL, 0, ALL, ALL),
    (0, ALL, ALL, ALL, ALL),
    (0, ALL, 0, 0xfffe_ffff, 0),
    (0, ALL, ALL, 0x7fff_ffff, 0),
    (0, ALL, 0x5555_5555, ALL, 0),
    (0, 0x7fff_ffff, 0, ALL, 0),
    (0x8000_0000, 0x7fff_ffff, ALL, ALL, 0x8000_0000),
];

// Room for two step clauses of two literals for each of the relays, and for one clause of all of them.
const FOUR_ROOM: Capacity = Capacity {
    clauses: 9,
    literals: 20,
};

const ALL_ROOM: Capacity = Capacity {
    clauses: 65,
    literals: 160,
};

// Whether the descent ends as the row says.
fn descends<S: Solver>(heap: Global, solver: &mut S, relays: u8, row: &Row) -> Option<bool> {
    let (kept, moved, state, given, end) = *row;
    let bytes = moving_case(heap, relays, Moves { kept, moved })?;
    let case = Case::read(heap, bytes.as_slice()).ok()?;
    load_case(solver, &case).ok()?;
    let sieve = LiteralSieve::new(&case, state);
    let mut marks = marks_of(heap, relays, given, usize::from(relays))?;
    descend(&sieve, solver, marks.as_mut_slice()).ok()?;
    Some(marks == marks_of(heap, relays, end, usize::from(relays))?)
}

// The first row that ends otherwise, of a solver with this room.
fn first_wrong<E: Engine>(
    heap: Global,
    room: Capacity,
    relays: u8,
    rows: &[Row],
) -> Result<Option<usize>, Fail> {
    let mut solver = Keeping::<E>::new(heap, room)?;
    Ok(rows.iter().position(|row| descends(heap, &mut solver, relays, row) != Some(true)))
}

#[test]
fn counting_descends(rt: HostRuntime) -> Result<(), Fail> {
    let heap = rt.alloc();
    assert_eq!(rt;
        first_wrong::<Counter>(heap, FOUR_ROOM, 4, &FOUR_ROWS)?,
        None
    );
    Ok(())
}

#[test]
fn propagating_descends(rt: HostRuntime) -> Result<(), Fail> {
    let heap = rt.alloc();
    assert_eq!(rt;
        first_wrong::<Search>(heap, FOUR_ROOM, 4, &FOUR_ROWS)?,
        None
    );
    assert_eq!(rt; first_wrong::<Search>(heap, ALL_ROOM, 32, &ALL_ROWS)?, None);
    Ok(())
}
