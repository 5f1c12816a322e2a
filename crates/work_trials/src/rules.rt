// The rules of used entries, each broken in turn. Four entries were stored by a taking, and are then written over.
use crate::works::{Call, ROOM, Written, blank_book, entry_of, says, write_entries};
use books::{Entry, Kind};
use counting::Counter;
use faults::WorkFault;
use keeping::{Engine, Keeping};
use samples::{ACCEPTED, SWAP, Said, TWO, WIDE};
use search::Search;
use solver::Solver;
use std::alloc::Global;
use std::test::Fail;
use work::{Work, open};

// The entries, and the first that is against its rule.
type Row = (&'static [Written], Option<usize>);

// Relay 1 is off; relay 0 is on or relay 1 is off; and the subgoal of state 2, from where safety clause 0 breaks.
const OFF: Written = (Kind::Taken, 2, 0, 0);

const EITHER: Written = (Kind::Found, 3, 1, 0);

const GOAL: Written = (Kind::Subgoal, 2, 1, 0);

const BLANK: Written = (Kind::Blank, 0, 0, 0);

// Of two relays and one safety clause.
const TWO_ROWS: [Row; 43] = [
    (&[OFF, EITHER, GOAL, GOAL], None),
    // the empty clause, and clauses and states of all relays
    (&[(Kind::Found, 0, 0, 0), OFF, OFF, OFF], None),
    (
        &[(Kind::Taken, 3, 3, 0), (Kind::Subgoal, 3, 3, 0), OFF, OFF],
        None,
    ),
    // a used blank, whatever else is in it
    (&[BLANK, OFF, OFF, OFF], Some(0)),
    (&[OFF, OFF, OFF, BLANK], Some(3)),
    (&[OFF, (Kind::Blank, 2, 0, 0), OFF, OFF], Some(1)),
    // first has a relay too high
    (&[OFF, (Kind::Found, 4, 0, 0), OFF, OFF], Some(1)),
    (&[OFF, (Kind::Taken, 4, 0, 0), OFF, OFF], Some(1)),
    (&[OFF, OFF, (Kind::Found, 6, 2, 0), OFF], Some(2)),
    (&[OFF, OFF, (Kind::Taken, 0x8000_0002, 2, 0), OFF], Some(2)),
    // second has a relay that first has not
    (&[(Kind::Found, 1, 2, 0), OFF, OFF, OFF], Some(0)),
    (&[(Kind::Taken, 1, 3, 0), OFF, OFF, OFF], Some(0)),
    (&[(Kind::Found, 0, 1, 0), OFF, OFF, OFF], Some(0)),
    (&[(Kind::Taken, 3, 0x8000_0003, 0), OFF, OFF, OFF], Some(0)),
    // third is not 0
    (&[OFF, OFF, OFF, (Kind::Found, 1, 0, 1)], Some(3)),
    (&[OFF, OFF, OFF, (Kind::Taken, 1, 0, 256)], Some(3)),
    // state and successor too high
    (&[OFF, (Kind::Subgoal, 4, 1, 0), OFF, OFF], Some(1)),
    (&[OFF, (Kind::Subgoal, 2, 4, 0), OFF, OFF], Some(1)),
    (
        &[OFF, (Kind::Subgoal, 0x8000_0000, 1, 0), OFF, OFF],
        Some(1),
    ),
    (
        &[OFF, (Kind::Subgoal, 2, 0xffff_ffff, 0), OFF, OFF],
        Some(1),
    ),
    // third is no safety clause, and below 256
    (&[(Kind::Subgoal, 2, 1, 1), OFF, OFF, OFF], Some(0)),
    (&[OFF, (Kind::Subgoal, 2, 1, 2), OFF, OFF], Some(1)),
    (&[GOAL, GOAL, (Kind::Subgoal, 2, 2, 255), OFF], Some(2)),
    // third is that of a subgoal at the successor, the nearest or not
    (&[GOAL, (Kind::Subgoal, 0, 2, 256), OFF, OFF], None),
    (&[GOAL, OFF, OFF, (Kind::Subgoal, 3, 2, 256)], None),
    (&[OFF, OFF, GOAL, (Kind::Subgoal, 2, 2, 258)], None),
    (
        &[
            GOAL,
            (Kind::Subgoal, 0, 2, 256),
            (Kind::Subgoal, 3, 0, 257),
            OFF,
        ],
        None,
    ),
    // its own, a later one, one past the used ones, and the highest
    (&[(Kind::Subgoal, 2, 2, 256), OFF, OFF, OFF], Some(0)),
    (&[OFF, (Kind::Subgoal, 2, 2, 257), OFF, OFF], Some(1)),
    (&[OFF, (Kind::Subgoal, 2, 2, 258), GOAL, OFF], Some(1)),
    (&[OFF, OFF, OFF, (Kind::Subgoal, 2, 2, 260)], Some(3)),
    (&[GOAL, OFF, OFF, (Kind::Subgoal, 2, 2, 0xffff)], Some(3)),
    // that of a clause, also where its first is the successor
    (&[OFF, (Kind::Subgoal, 0, 2, 256), OFF, OFF], Some(1)),
    (
        &[(Kind::Found, 2, 0, 0), (Kind::Subgoal, 0, 2, 256), OFF, OFF],
        Some(1),
    ),
    // that of a subgoal of another state, though its successor is that
    (&[GOAL, (Kind::Subgoal, 0, 3, 256), OFF, OFF], Some(1)),
    (&[GOAL, (Kind::Subgoal, 0, 1, 256), OFF, OFF], Some(1)),
    (
        &[
            GOAL,
            (Kind::Subgoal, 0, 2, 256),
            (Kind::Subgoal, 3, 2, 257),
            OFF,
        ],
        Some(2),
    ),
    // the first of several
    (&[BLANK, BLANK, BLANK, BLANK], Some(0)),
    (&[OFF, BLANK, BLANK, OFF], Some(1)),
    (
        &[
            OFF,
            (Kind::Subgoal, 2, 2, 257),
            (Kind::Found, 4, 0, 0),
            BLANK,
        ],
        Some(1),
    ),
    (
        &[
            GOAL,
            (Kind::Subgoal, 0, 2, 256),
            (Kind::Found, 1, 0, 1),
            BLANK,
        ],
        Some(2),
    ),
    // a subgoal of a subgoal that is against its rule comes after that
    (
        &[
            (Kind::Subgoal, 2, 1, 1),
            (Kind::Subgoal, 0, 2, 256),
            OFF,
            OFF,
        ],
        Some(0),
    ),
    (&[BLANK, (Kind::Subgoal, 2, 0, 256), OFF, OFF], Some(0)),
];

// Of two relays and no safety clause: no subgoal can be the first.
const SWAP_ROWS: [Row; 4] = [
    (&[OFF, EITHER, EITHER, OFF], None),
    (&[GOAL, OFF, OFF, OFF], Some(0)),
    (&[OFF, OFF, OFF, GOAL], Some(3)),
    (&[OFF, (Kind::Subgoal, 2, 2, 256), OFF, OFF], Some(1)),
];

const ALL: u32 = 0xffff_ffff;

// Of 32 relays, where no state and no relay is too high, and one safety clause.
const WIDE_ROWS: [Row; 6] = [
    (
        &[
            (Kind::Found, ALL, ALL, 0),
            (Kind::Taken, ALL, 0, 0),
            OFF,
            OFF,
        ],
        None,
    ),
    (
        &[
            (Kind::Subgoal, ALL, ALL, 0),
            (Kind::Subgoal, 0, ALL, 256),
            OFF,
            OFF,
        ],
        None,
    ),
    (&[OFF, (Kind::Found, ALL - 1, ALL, 0), OFF, OFF], Some(1)),
    (
        &[OFF, (Kind::Taken, 0x7fff_ffff, 0x8000_0000, 0), OFF, OFF],
        Some(1),
    ),
    (
        &[
            (Kind::Subgoal, ALL, ALL, 0),
            (Kind::Subgoal, 0, 0, 256),
            OFF,
            OFF,
        ],
        Some(1),
    ),
    (&[(Kind::Subgoal, ALL, ALL, 1), OFF, OFF, OFF], Some(0)),
];

// Whether reading, a turn and two takings tell what the row says, the second of a list with a fault. Where all entries keep
// their rules no turn is asked.
fn told<S: Solver>(
    heap: Global,
    work: &mut Work,
    solver: &mut S,
    book: &mut [Entry],
    row: &Row,
) -> bool {
    let (entries, wrong) = *row;
    write_entries(book, 0, entries);
    let read = work.entry(book, 0);
    match wrong {
        None => {
            entries
                .first()
                .is_some_and(|first| read == Ok(entry_of(*first)))
                && says(heap, work, solver, book, Call::Take(&[]), ACCEPTED)
        }
        Some(number) => {
            let expected: Said = Err((3, 44, number));
            read == Err(WorkFault::AgainstRules(number))
                && says(heap, work, solver, book, Call::Turn, expected)
                && says(heap, work, solver, book, Call::Take(&[1, 3]), expected)
                && says(heap, work, solver, book, Call::Take(&[9]), expected)
        }
    }
}

// The first row that is told otherwise, of one work on the case that has taken the four candidates.
fn first_row<S: Solver>(
    heap: Global,
    solver: &mut S,
    bytes: &[u8],
    four: &[u8],
    rows: &[Row],
) -> Result<Option<usize>, Fail> {
    let mut book = blank_book(heap, 5)?;
    let mut work = open(heap, bytes, solver, 5).map_err(|_| Fail::new("not opened"))?;
    let book = book.as_mut_slice();
    let taken = work.take(solver, book, four).is_ok() && work.look().used == 4;
    let wrong = rows
        .iter()
        .position(|row| !(taken && told(heap, &mut work, solver, book, row)));
    work.close().put_away();
    Ok(wrong)
}

// Relay 0 is off and relay 1 is off, twice; and that relay 31 is off, four times.
const FOUR: &[u8] = &[1, 1, 1, 3, 1, 1, 1, 3];

const WIDE_FOUR: &[u8] = &[1, 63, 1, 63, 1, 63, 1, 63];

// What the tables are for: the case and the four candidates.
const TABLES: [(&[u8], &[u8], &[Row]); 3] = [
    (&TWO, FOUR, &TWO_ROWS),
    (&SWAP, FOUR, &SWAP_ROWS),
    (WIDE, WIDE_FOUR, &WIDE_ROWS),
];

// The first table of which a row is told otherwise, and that row.
fn first_wrong<E: Engine>(heap: Global) -> Result<Option<(usize, usize)>, Fail> {
    let mut solver = Keeping::<E>::new(heap, ROOM)?;
    for (table, (bytes, four, rows)) in TABLES.iter().enumerate() {
        if let Some(row) = first_row(heap, &mut solver, bytes, four, rows)? {
            return Ok(Some((table, row)));
        }
    }
    Ok(None)
}

#[test]
fn counting_tells(rt: HostRuntime) -> Result<(), Fail> {
    assert_eq!(rt; first_wrong::<Counter>(rt.alloc())?, None);
    Ok(())
}

#[test]
fn propagating_tells(rt: HostRuntime) -> Result<(), Fail> {
    assert_eq!(rt; first_wrong::<Search>(rt.alloc())?, None);
    Ok(())
}
