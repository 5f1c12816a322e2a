// What reading an entry and a state refuses, alone and several at once: which comes first.
use crate::works::{ROOM, Written, write_entries};
use books::{Entry, Kind};
use counting::Counter;
use faults::WorkFault;
use keeping::{Engine, Keeping};
use samples::{ANY_START, OPEN, Refused, SWAP, TWO, said};
use search::Search;
use solver::Solver;
use std::alloc::Global;
use std::test::Fail;
use work::{Work, open};

// The number, the entry that is read, and the state.
type Reading = (usize, Result<Written, Refused>, Result<u32, Refused>);

// The case, which gets four places, how many turns are accepted, what the used entries are written over with, how many places are
// handed in, and readings.
type Row = (
    &'static [u8],
    usize,
    &'static [Written],
    usize,
    &'static [Reading],
);

// Two subgoals whose successors break safety clause 0, one at the first place and one at either; and one of a subgoal of the latter.
const FIRST: Written = (Kind::Subgoal, 0, 1, 0);

const GOAL: Written = (Kind::Subgoal, 2, 3, 0);

const LAST: Written = (Kind::Subgoal, 0, 2, 256);

const OFF: Written = (Kind::Found, 2, 0, 0);

const BLANK: Written = (Kind::Blank, 0, 0, 0);

const MOST: usize = 0xffff_ffff_ffff_ffff;

// Both readings are refused.
const SIZE: &[Reading] = &[
    (0, Err((3, 42, 0)), Err((3, 42, 0))),
    (7, Err((3, 42, 0)), Err((3, 42, 0))),
];

const FIRST_WRONG: &[Reading] = &[
    (0, Err((3, 44, 0)), Err((3, 44, 0))),
    (7, Err((3, 44, 0)), Err((3, 44, 0))),
];

const SECOND_WRONG: &[Reading] = &[
    (0, Err((3, 44, 1)), Err((3, 44, 1))),
    (7, Err((3, 44, 1)), Err((3, 44, 1))),
];

const ROWS: &[Row] = &[
    // broken by its last entry: the run is read along the targets
    (
        &OPEN,
        2,
        &[GOAL, LAST],
        4,
        &[
            (0, Ok(GOAL), Ok(0)),
            (1, Ok(LAST), Ok(2)),
            (2, Err((3, 31, 2)), Ok(3)),
            (3, Err((3, 31, 3)), Err((3, 31, 3))),
            (MOST, Err((3, 31, MOST)), Err((3, 31, MOST))),
        ],
    ),
    // another subgoal last: its run is read
    (
        &OPEN,
        2,
        &[FIRST, GOAL],
        4,
        &[
            (0, Ok(FIRST), Ok(2)),
            (1, Ok(GOAL), Ok(3)),
            (2, Err((3, 31, 2)), Err((3, 31, 2))),
        ],
    ),
    // a clause last, with and without another fault
    (&OPEN, 2, &[GOAL, OFF], 4, FIRST_WRONG),
    (&OPEN, 2, &[OFF, OFF], 4, FIRST_WRONG),
    (&OPEN, 2, &[GOAL, (Kind::Taken, 0, 0, 0)], 4, FIRST_WRONG),
    (&OPEN, 2, &[GOAL, OFF], 5, SIZE),
    // the rules come before that
    (&OPEN, 2, &[GOAL, (Kind::Found, 4, 0, 0)], 4, SECOND_WRONG),
    (&OPEN, 2, &[GOAL, BLANK], 4, SECOND_WRONG),
    (
        &OPEN,
        2,
        &[GOAL, (Kind::Subgoal, 0, 3, 256)],
        4,
        SECOND_WRONG,
    ),
    (&OPEN, 2, &[BLANK, OFF], 4, FIRST_WRONG),
    (&OPEN, 2, &[BLANK, LAST], 4, FIRST_WRONG),
    // a book of another size comes before all
    (&OPEN, 2, &[GOAL, LAST], 3, SIZE),
    (&OPEN, 2, &[GOAL, LAST], 5, SIZE),
    (&OPEN, 2, &[GOAL, LAST], 0, SIZE),
    (&OPEN, 2, &[BLANK, BLANK], 5, SIZE),
    // undecided: a clause may be last, and there is no run, whatever the number
    (
        &OPEN,
        1,
        &[OFF],
        4,
        &[
            (0, Ok(OFF), Err((3, 46, 0))),
            (1, Err((3, 31, 1)), Err((3, 46, 0))),
            (MOST, Err((3, 31, MOST)), Err((3, 46, 0))),
        ],
    ),
    (&OPEN, 1, &[BLANK], 4, FIRST_WRONG),
    (&OPEN, 1, &[BLANK], 3, SIZE),
    (&TWO, 0, &[], 4, &[(0, Err((3, 31, 0)), Err((3, 46, 0)))]),
    (&TWO, 0, &[], 5, SIZE),
    // holds
    (
        &TWO,
        2,
        &[OFF],
        4,
        &[
            (0, Ok(OFF), Err((3, 46, 0))),
            (1, Err((3, 31, 1)), Err((3, 46, 0))),
        ],
    ),
    (&TWO, 2, &[BLANK], 4, FIRST_WRONG),
    (&TWO, 2, &[OFF], 3, SIZE),
    (&SWAP, 1, &[], 4, &[(0, Err((3, 31, 0)), Err((3, 46, 0)))]),
    // broken at opening: the run is that state
    (
        ANY_START,
        0,
        &[],
        4,
        &[
            (0, Err((3, 31, 0)), Ok(1)),
            (1, Err((3, 31, 1)), Err((3, 31, 1))),
            (MOST, Err((3, 31, MOST)), Err((3, 31, MOST))),
        ],
    ),
    (ANY_START, 0, &[], 3, SIZE),
];

// What an entry that is read is.
fn told(answer: Result<Entry, WorkFault>) -> Result<Written, Refused> {
    let entry = said(answer)?;
    Ok((entry.kind, entry.first, entry.second, entry.third))
}

// Whether the open work reads the entries, and the closed one those and the states.
fn reads_all(work: Work, book: &[Entry], readings: &[Reading]) -> bool {
    let opened = readings.iter().all(|(number, entry, _state)| told(work.entry(book, *number))
        == *entry);
    let closed = work.close();
    let read = readings.iter().all(|(number, entry, state)| {
        told(closed.entry(book, *number)) == *entry && said(closed.state(book, *number)) == *state
    });
    closed.put_away();
    opened && read
}

// Whether the readings go as the row says, of a work that was opened and took the turns.
fn reads<S: Solver>(heap: Global, solver: &mut S, row: &Row) -> Option<bool> {
    let (bytes, turns, entries, size, readings) = *row;
    let mut book = [Entry::blank(); 5];
    let mut work = open(heap, bytes, solver, 4).ok()?;
    let mut turned = true;
    for _ in 0..turns {
        turned = turned && work.turn(solver, &mut book[..4]).is_ok();
    }
    let used = work.look().used == entries.len();
    write_entries(&mut book, 0, entries);
    let read = reads_all(work, &book[..size.min(5)], readings);
    Some(turned && used && read)
}

// The first row that is read otherwise.
fn first_wrong<E: Engine>(heap: Global) -> Result<Option<usize>, Fail> {
    let mut solver = Keeping::<E>::new(heap, ROOM)?;
    Ok(
        ROWS.iter()
            .position(|row| reads(heap, &mut solver, row) != Some(true)),
    )
}

#[test]
fn counting_reads(rt: HostRuntime) -> Result<(), Fail> {
    assert_eq!(rt; first_wrong::<Counter>(rt.alloc())?, None);
    Ok(())
}

#[test]
fn propagating_reads(rt: HostRuntime) -> Result<(), Fail> {
    assert_eq!(rt; first_wrong::<Search>(rt.alloc())?, None);
    Ok(())
}
