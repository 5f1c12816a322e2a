// Cases that are judged at once: what judging gives, the entries that are used, and the run that is read out.
use crate::works::{ROOM, Written, blank_book, entry_of};
use books::{Entry, Kind};
use counting::Counter;
use faults::WorkFault;
use histories::Verdict;
use keeping::{Engine, Keeping};
use samples::{
    ANY_START, MOST_RELAYS, OFF_START, OPEN, Refused, SWAP, TOO_MANY_RELAYS, TWO, WIDE, refused,
};
use search::Search;
use solver::Solver;
use std::alloc::Global;
use std::test::Fail;
use work::{Closed, Judged, judge};

// Verdict, used places, places, and how the last turn was refused; or how opening was refused.
type Given = Result<(Verdict, usize, usize, Option<Refused>), Refused>;

// The used entries and the run.
type Read = (&'static [Written], &'static [u32]);

// The bytes of the case, the places, what is given, and what may be read, where the solver is free to find one or another.
type Row = (&'static [u8], usize, Given, &'static [Read]);

const NO_PLACE: Option<Refused> = Some((3, 43, 0));

const NOTHING: &[Read] = &[(&[], &[])];

// The one relay of OFF_START, on and off at the start: there is no initial state. The safety clause is never true.
const NO_START: &[u8] = &[
    1, 0, 0, 0, 2, 0, 0, 0, 1, 0, 18, 0, 22, 0, 22, 0, 23, 0, //
    1, 0, 1, 1, //
    0,
];

// No clause at all, over one relay.
const ONE_RELAY: &[u8] = &[1, 0, 0, 0, 0, 0, 0, 0, 0, 0, 18, 0, 18, 0, 18, 0, 18, 0];

// Relay 1 is off.
const FOUND: &[Read] = &[(&[(Kind::Found, 2, 0, 0)], &[])];

// From relay 1 on, relay 0 comes on, and relay 1 may go off or stay.
const SUBGOAL: &[Read] = &[
    (&[(Kind::Subgoal, 2, 1, 0)], &[]),
    (&[(Kind::Subgoal, 2, 3, 0)], &[]),
];

const BROKEN: &[Read] = &[
    (
        &[(Kind::Subgoal, 2, 1, 0), (Kind::Subgoal, 0, 2, 256)],
        &[0, 2, 1],
    ),
    (
        &[(Kind::Subgoal, 2, 3, 0), (Kind::Subgoal, 0, 2, 256)],
        &[0, 2, 3],
    ),
];

const ROWS: &[Row] = &[
    (&TWO, 4, Ok((Verdict::Holds, 1, 4, None)), FOUND),
    (&TWO, 1, Ok((Verdict::Holds, 1, 1, None)), FOUND),
    (&TWO, 0, Ok((Verdict::Undecided, 0, 0, NO_PLACE)), NOTHING),
    (&OPEN, 4, Ok((Verdict::BrokenByEntry, 2, 4, None)), BROKEN),
    (&OPEN, 2, Ok((Verdict::BrokenByEntry, 2, 2, None)), BROKEN),
    (&OPEN, 1, Ok((Verdict::Undecided, 1, 1, NO_PLACE)), SUBGOAL),
    (&OPEN, 0, Ok((Verdict::Undecided, 0, 0, NO_PLACE)), NOTHING),
    // an empty safety list holds at the first turn, and needs no place
    (&SWAP, 4, Ok((Verdict::Holds, 0, 4, None)), NOTHING),
    (&SWAP, 0, Ok((Verdict::Holds, 0, 0, None)), NOTHING),
    (ONE_RELAY, 0, Ok((Verdict::Holds, 0, 0, None)), NOTHING),
    (MOST_RELAYS, 1, Ok((Verdict::Holds, 0, 1, None)), NOTHING),
    (TOO_MANY_RELAYS, 1, Err((2, 12, 0)), &[]),
    // an initial state is broken: found at opening
    (
        ANY_START,
        4,
        Ok((Verdict::BrokenAt(1), 0, 4, None)),
        &[(&[], &[1])],
    ),
    (
        ANY_START,
        0,
        Ok((Verdict::BrokenAt(1), 0, 0, None)),
        &[(&[], &[1])],
    ),
    // the first subgoal is initial
    (
        OFF_START,
        1,
        Ok((Verdict::BrokenByEntry, 1, 1, None)),
        &[(&[(Kind::Subgoal, 0, 1, 0)], &[0, 1])],
    ),
    (
        OFF_START,
        0,
        Ok((Verdict::Undecided, 0, 0, NO_PLACE)),
        NOTHING,
    ),
    // no state is initial, and none is consistent
    (NO_START, 0, Ok((Verdict::Holds, 0, 0, None)), NOTHING),
];

// Relay 31 is off.
const WIDE_FOUND: &[Read] = &[(&[(Kind::Found, 0x8000_0000, 0, 0)], &[])];

// What the solver that goes through all valuations takes too long for.
const WIDE_ROWS: &[Row] = &[
    (WIDE, 4, Ok((Verdict::Holds, 1, 4, None)), WIDE_FOUND),
    (WIDE, 1, Ok((Verdict::Holds, 1, 1, None)), WIDE_FOUND),
    (WIDE, 0, Ok((Verdict::Undecided, 0, 0, NO_PLACE)), NOTHING),
];

// Whether the used entries are these, and no entry is read after them.
fn has_entries(closed: &Closed, book: &[Entry], entries: &[Written]) -> bool {
    let count = entries.len();
    entries.iter().enumerate().all(|(number, written)| closed.entry(book, number)
        == Ok(entry_of(*written)))
        && closed.entry(book, count) == Err(WorkFault::NoSuchEntry(count))
}

// Whether the states of the run are these. After the last none is read; there is no run where the verdict is not broken.
fn has_run(closed: &Closed, book: &[Entry], run: &[u32]) -> bool {
    let count = run.len();
    let end = if count == 0 {
        WorkFault::NotBroken
    } else {
        WorkFault::NoSuchState(count)
    };
    run.iter()
        .enumerate()
        .all(|(number, state)| closed.state(book, number) == Ok(*state))
        && closed.state(book, count) == Err(end)
}

// Whether judging gives what the row says, and one of what may be read.
fn gives<S: Solver>(heap: Global, solver: &mut S, row: &Row) -> bool {
    let (bytes, places, given, reads) = *row;
    let Ok(mut book) = blank_book(heap, places) else {
        return false;
    };
    match judge(heap, bytes, solver, book.as_mut_slice()) {
        Err(fault) => given == Err(refused(&fault)),
        Ok(
            Judged {
                closed,
                refused: last,
            },
        ) => {
            let look = closed.look();
            let last = last.map(|fault| refused(&fault));
            let read = reads.iter().any(|(entries, run)| {
                has_entries(&closed, book.as_slice(), entries)
                    && has_run(&closed, book.as_slice(), run)
            });
            closed.put_away();
            read && given == Ok((look.verdict, look.used, look.places, last))
        }
    }
}

// The first of the rows that is judged otherwise.
fn first_wrong<E: Engine>(heap: Global, rows: &[Row]) -> Result<Option<usize>, Fail> {
    let mut solver = Keeping::<E>::new(heap, ROOM)?;
    for (number, row) in rows.iter().enumerate() {
        if !gives(heap, &mut solver, row) {
            return Ok(Some(number));
        }
    }
    Ok(None)
}

#[test]
fn counting_judges(rt: HostRuntime) -> Result<(), Fail> {
    assert_eq!(rt; first_wrong::<Counter>(rt.alloc(), ROWS)?, None);
    Ok(())
}

#[test]
fn propagating_judges(rt: HostRuntime) -> Result<(), Fail> {
    assert_eq!(rt; first_wrong::<Search>(rt.alloc(), ROWS)?, None);
    assert_eq!(rt; first_wrong::<Search>(rt.alloc(), WIDE_ROWS)?, None);
    Ok(())
}
