// Takings: what they say, what they store, and that a turn goes on from there.
use crate::works::{Call, NO_PLACE, ROOM, Written, begins_with, blank_book, says};
use books::{Entry, Kind};
use counting::Counter;
use histories::Verdict;
use keeping::{Engine, Keeping};
use samples::{ACCEPTED, SWAP, Said, TWO, held, off_candidates, said};
use search::Search;
use solver::Solver;
use std::alloc::Global;
use std::test::Fail;
use work::{Work, open};

// A list of candidates, and what is said.
type Taking = (&'static [u8], Said);

// The case and its places, the takings, the entries that they store, the verdict of a turn after them, and how many clauses and
// literals the solver holds then: those of the case without its start clauses, and one clause for each entry.
type Row = (
    &'static [u8],
    usize,
    &'static [Taking],
    &'static [Written],
    Verdict,
    (usize, usize),
);

const OFF_0: Written = (Kind::Taken, 1, 0, 0);

const OFF_1: Written = (Kind::Taken, 2, 0, 0);

const ROWS: &[Row] = &[
    // relay 0 is off, relay 1 is off, relay 0 is on, which is false at the start; in list order
    (
        &SWAP,
        4,
        &[(&[1, 1, 1, 3, 1, 0], ACCEPTED)],
        &[OFF_0, OFF_1],
        Verdict::Holds,
        (6, 10),
    ),
    (
        &SWAP,
        2,
        &[(&[1, 0, 1, 3, 1, 1], ACCEPTED)],
        &[OFF_1, OFF_0],
        Verdict::Holds,
        (6, 10),
    ),
    // alone it falls, also twice; an empty list, and the empty clause, which is false at the start
    (
        &SWAP,
        4,
        &[(&[1, 1], ACCEPTED)],
        &[],
        Verdict::Holds,
        (4, 8),
    ),
    (
        &SWAP,
        4,
        &[(&[1, 1, 1, 1], ACCEPTED)],
        &[],
        Verdict::Holds,
        (4, 8),
    ),
    (&SWAP, 4, &[(&[], ACCEPTED)], &[], Verdict::Holds, (4, 8)),
    (&SWAP, 4, &[(&[0], ACCEPTED)], &[], Verdict::Holds, (4, 8)),
    (
        &SWAP,
        4,
        &[(&[0, 1, 1], ACCEPTED)],
        &[],
        Verdict::Holds,
        (4, 8),
    ),
    // one that stands twice is stored twice
    (
        &SWAP,
        4,
        &[(&[1, 1, 1, 3, 1, 1], ACCEPTED)],
        &[OFF_0, OFF_1, OFF_0],
        Verdict::Holds,
        (7, 11),
    ),
    // relay 1 is on where relay 0 is, the other way round, and one of the two is off
    (
        &SWAP,
        3,
        &[(&[2, 1, 2, 2, 0, 3, 2, 1, 3], ACCEPTED)],
        &[
            (Kind::Taken, 3, 2, 0),
            (Kind::Taken, 3, 1, 0),
            (Kind::Taken, 3, 0, 0),
        ],
        Verdict::Holds,
        (7, 14),
    ),
    // a later taking is relative to what an earlier one stored
    (
        &SWAP,
        4,
        &[
            (&[1, 1], ACCEPTED),
            (&[1, 1, 1, 3], ACCEPTED),
            (&[1, 1], ACCEPTED),
        ],
        &[OFF_0, OFF_1, OFF_0],
        Verdict::Holds,
        (7, 11),
    ),
    // too few places, none at all, and just enough
    (
        &SWAP,
        1,
        &[(&[1, 1, 1, 3], NO_PLACE)],
        &[],
        Verdict::Holds,
        (4, 8),
    ),
    (
        &SWAP,
        0,
        &[(&[2, 1, 3], NO_PLACE), (&[1, 1], ACCEPTED), (&[], ACCEPTED)],
        &[],
        Verdict::Holds,
        (4, 8),
    ),
    (
        &SWAP,
        3,
        &[
            (&[1, 1, 1, 3], ACCEPTED),
            (&[1, 1, 1, 3], NO_PLACE),
            (&[1, 3], ACCEPTED),
            (&[1, 3], NO_PLACE),
        ],
        &[OFF_0, OFF_1, OFF_1],
        Verdict::Holds,
        (7, 11),
    ),
    // lists that are refused: past the end, no relay, a relay again; a fault comes before the want of a place
    (
        &SWAP,
        0,
        &[
            (&[1, 1, 1, 3, 1], Err((1, 17, 4))),
            (&[1, 1, 1, 4], Err((1, 18, 3))),
            (&[1, 0x40], Err((1, 18, 1))),
            (&[2, 1, 0], Err((1, 19, 2))),
        ],
        &[],
        Verdict::Holds,
        (4, 8),
    ),
    // relay 1 is off stays alone, and then a turn finds nothing
    (
        &TWO,
        4,
        &[(&[1, 3], ACCEPTED)],
        &[OFF_1],
        Verdict::Holds,
        (6, 10),
    ),
    // relay 0 is off falls alone, though it is the safety clause, and stays beside the other
    (
        &TWO,
        4,
        &[(&[1, 1, 1, 3], ACCEPTED)],
        &[OFF_0, OFF_1],
        Verdict::Holds,
        (7, 11),
    ),
    (
        &TWO,
        0,
        &[(&[1, 1], ACCEPTED), (&[1, 3], NO_PLACE)],
        &[],
        Verdict::Undecided,
        (0, 0),
    ),
    // relay 1 is on where relay 0 is: stays, and the turn finds another
    (
        &TWO,
        1,
        &[(&[2, 1, 2], ACCEPTED)],
        &[(Kind::Taken, 3, 2, 0)],
        Verdict::Undecided,
        (0, 0),
    ),
    (
        &TWO,
        2,
        &[(&[2, 1, 2], ACCEPTED)],
        &[(Kind::Taken, 3, 2, 0)],
        Verdict::Undecided,
        (0, 0),
    ),
    (
        &TWO,
        4,
        &[(&[1, 0, 1, 2], ACCEPTED)],
        &[],
        Verdict::Undecided,
        (0, 0),
    ),
    (&TWO, 4, &[], &[], Verdict::Undecided, (0, 0)),
];

// Whether the takings say what the row says, and a turn goes on from there, of a work that was opened.
fn goes_on<S: Solver>(
    heap: Global,
    work: &mut Work,
    solver: &mut S,
    book: &mut [Entry],
    row: &Row,
) -> bool {
    let (_bytes, places, takings, entries, verdict, holds) = *row;
    let takes = takings.iter().all(|(listed, expected)| says(
        heap,
        work,
        solver,
        book,
        Call::Take(listed),
        *expected,
    ));
    let used = entries.len();
    let stored = work.look().used == used && begins_with(book, entries);
    let full = verdict == Verdict::Undecided && used == places;
    let turn = if full { NO_PLACE } else { ACCEPTED };
    let turns = says(heap, work, solver, book, Call::Turn, turn);
    takes && stored && turns && work.look().verdict == verdict && held(solver) == holds
}

// The same, from opening to closing.
fn takes<S: Solver>(heap: Global, solver: &mut S, row: &Row) -> Option<bool> {
    let mut book = blank_book(heap, row.1).ok()?;
    let mut work = open(heap, row.0, solver, row.1).ok()?;
    let right = goes_on(heap, &mut work, solver, book.as_mut_slice(), row);
    work.close().put_away();
    Some(right)
}

// How many candidates that relay 0 or relay 1 is off, in turn, how many places, what is said, and how many are used then; and what
// the solver holds after a turn.
type ManyRow = (usize, usize, Said, usize, (usize, usize));

const MANY_ROWS: &[ManyRow] = &[
    (511, 511, ACCEPTED, 511, (515, 519)),
    (512, 512, ACCEPTED, 512, (516, 520)),
    (512, 513, ACCEPTED, 512, (516, 520)),
    (512, 511, NO_PLACE, 0, (4, 8)),
    (512, 0, NO_PLACE, 0, (4, 8)),
    (513, 600, Err((3, 21, 1024)), 0, (4, 8)),
    (513, 0, Err((3, 21, 1024)), 0, (4, 8)),
];

// Whether a taking of so many goes as the row says, and a turn then holds.
fn takes_many<S: Solver>(heap: Global, solver: &mut S, row: &ManyRow) -> Option<bool> {
    let (count, places, expected, stored, holds) = *row;
    let listed = off_candidates(heap, 2, count)?;
    let mut book = blank_book(heap, places).ok()?;
    let mut work = open(heap, &SWAP, solver, places).ok()?;
    let answer = said(work.take(solver, book.as_mut_slice(), listed.as_slice()));
    let takes = answer == expected && work.look().used == stored && held(solver) == (0, 0);
    let turns = work.turn(solver, book.as_mut_slice()) == Ok(());
    let decides = work.look().verdict == Verdict::Holds && held(solver) == holds;
    work.close().put_away();
    Some(takes && turns && decides)
}

// The first row that goes otherwise.
fn first_few<S: Solver>(heap: Global, solver: &mut S) -> Option<usize> {
    for (number, row) in ROWS.iter().enumerate() {
        if takes(heap, solver, row) != Some(true) {
            return Some(number);
        }
    }
    None
}

// The first row of each table that goes otherwise.
fn first_wrong<E: Engine>(heap: Global) -> Result<(Option<usize>, Option<usize>), Fail> {
    let mut solver = Keeping::<E>::new(heap, ROOM)?;
    let few = first_few(heap, &mut solver);
    let many = MANY_ROWS
        .iter()
        .position(|row| takes_many(heap, &mut solver, row) != Some(true));
    Ok((few, many))
}

#[test]
fn counting_takes(rt: HostRuntime) -> Result<(), Fail> {
    assert_eq!(rt; first_wrong::<Counter>(rt.alloc())?, (None, None));
    Ok(())
}

#[test]
fn propagating_takes(rt: HostRuntime) -> Result<(), Fail> {
    assert_eq!(rt; first_wrong::<Search>(rt.alloc())?, (None, None));
    Ok(())
}
