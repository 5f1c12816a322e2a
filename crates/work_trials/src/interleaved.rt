// Lists of calls, made alike twice: with one solver and a book that only they write, and with two solvers in turn, unused places
// written over before each call, and calls with a book of another size in between.
use crate::seven::SEVEN;
use crate::works::{
    Call, DECIDED, NO_PLACE, ROOM, SIZE, Written, blank_book, entry_of, make, says,
};
use books::{Entry, Kind};
use counting::Counter;
use histories::{Look, Verdict};
use keeping::{Engine, Keeping};
use samples::{ACCEPTED, OPEN, SWAP, Said, TWO};
use search::Search;
use solver::Solver;
use std::alloc::Global;
use std::test::Fail;
use work::{Work, open};

// The case, its places, calls with what they say, and what a look shows afterwards: the verdict and the used places.
type Row = (
    &'static [u8],
    usize,
    &'static [(Call, Said)],
    Verdict,
    usize,
);

// Of SEVEN: x0 differs from x1; y0 differs from y1, and x is on; and z and y are on.
const FIRST_PAIR: Call = Call::Take(&[2, 0, 2, 2, 1, 3]);

const SECOND_PAIR: Call = Call::Take(&[2, 6, 8, 2, 7, 9, 1, 4]);

const LAST: Call = Call::Take(&[1, 12, 1, 10]);

const ROWS: &[Row] = &[
    // relay 1 is off is taken after a turn has found it
    (
        &TWO,
        4,
        &[
            (Call::Turn, ACCEPTED),
            (Call::Take(&[1, 3, 1, 1]), ACCEPTED),
            (Call::Take(&[1]), Err((1, 17, 0))),
            (Call::Turn, ACCEPTED),
            (Call::Turn, DECIDED),
            (Call::Take(&[]), DECIDED),
        ],
        Verdict::Holds,
        3,
    ),
    // relay 1 is on where relay 0 is, is taken first
    (
        &TWO,
        2,
        &[
            (Call::Take(&[2, 1, 2]), ACCEPTED),
            (Call::Turn, ACCEPTED),
            (Call::Take(&[1, 3]), NO_PLACE),
            (Call::Turn, ACCEPTED),
        ],
        Verdict::Holds,
        2,
    ),
    (
        &TWO,
        1,
        &[
            (Call::Take(&[2, 1, 2]), ACCEPTED),
            (Call::Turn, NO_PLACE),
            (Call::Turn, NO_PLACE),
            (Call::Take(&[]), ACCEPTED),
        ],
        Verdict::Undecided,
        1,
    ),
    // nothing is taken between the two turns
    (
        &OPEN,
        3,
        &[
            (Call::Take(&[1, 3, 1, 1]), ACCEPTED),
            (Call::Turn, ACCEPTED),
            (Call::Take(&[1, 3]), ACCEPTED),
            (Call::Turn, ACCEPTED),
            (Call::Turn, DECIDED),
        ],
        Verdict::BrokenByEntry,
        2,
    ),
    (
        &SWAP,
        2,
        &[
            (Call::Take(&[1, 1]), ACCEPTED),
            (Call::Take(&[1, 1, 1, 3]), ACCEPTED),
            (Call::Take(&[2, 1, 3]), NO_PLACE),
            (Call::Turn, ACCEPTED),
        ],
        Verdict::Holds,
        2,
    ),
    // the last two fall alone; a turn stores one entry, five are too many then, three fit, and two more do not
    (
        &SEVEN,
        7,
        &[
            (LAST, ACCEPTED),
            (FIRST_PAIR, ACCEPTED),
            (Call::Turn, ACCEPTED),
            (
                Call::Take(&[2, 6, 8, 2, 7, 9, 1, 4, 1, 10, 1, 12]),
                NO_PLACE,
            ),
            (SECOND_PAIR, ACCEPTED),
            (LAST, NO_PLACE),
        ],
        Verdict::Undecided,
        6,
    ),
    // all that is needed is taken, and then a turn finds nothing
    (
        &SEVEN,
        7,
        &[
            (FIRST_PAIR, ACCEPTED),
            (SECOND_PAIR, ACCEPTED),
            (LAST, ACCEPTED),
            (Call::Turn, ACCEPTED),
            (Call::Turn, DECIDED),
        ],
        Verdict::Holds,
        7,
    ),
];

const JUNK: [Written; 4] = [
    (Kind::Subgoal, 0xdead_beef, 0x8000_0000, 0xffff),
    (Kind::Found, 0, 0xffff_ffff, 1),
    (Kind::Taken, 0xffff_ffff, 0, 0),
    (Kind::Subgoal, 0, 1, 0),
];

// Writes over the unused places.
fn spoil(work: &Work, book: &mut [Entry]) {
    let used = work.look().used;
    for (place, junk) in book.iter_mut().skip(used).zip(JUNK.iter().cycle()) {
        *place = entry_of(*junk);
    }
}

// Makes the calls of the row with one solver. What a look shows, if all say what they must.
fn plainly<S: Solver>(heap: Global, solver: &mut S, row: &Row) -> Option<Look> {
    let mut book = blank_book(heap, row.1).ok()?;
    let mut work = open(heap, row.0, solver, row.1).ok()?;
    let mut right = true;
    for (call, expected) in row.2 {
        right = right && make(&mut work, solver, book.as_mut_slice(), *call) == *expected;
    }
    let look = work.look();
    work.close().put_away();
    right.then_some(look)
}

// The refusal of a book of another size, which comes after that of a call after a verdict.
fn wrong_size(work: &Work) -> Said {
    match work.look().verdict {
        Verdict::Undecided => SIZE,
        _ => DECIDED,
    }
}

// Whether a call says so, after the same call with a book of another size, and with the unused places written over.
fn disturbed<S: Solver>(
    heap: Global,
    work: &mut Work,
    solver: &mut S,
    book: &mut [Entry],
    asked: Call,
    expected: Said,
) -> bool {
    let mut short = [Entry::blank(); 1];
    let size = if book.len() == 1 { 0 } else { 1 };
    let refused = wrong_size(work);
    let before = says(heap, work, solver, &mut short[..size], asked, refused);
    spoil(work, book);
    before && says(heap, work, solver, book, asked, expected)
}

// Makes the same calls with two solvers in turn, and with all that may come between.
fn otherwise<S: Solver, T: Solver>(
    heap: Global,
    solver: &mut S,
    other: &mut T,
    row: &Row,
) -> Option<Look> {
    let mut book = blank_book(heap, row.1).ok()?;
    let mut work = open(heap, row.0, solver, row.1).ok()?;
    let mut right = true;
    let mut swapped = false;
    for (call, expected) in row.2 {
        let book = book.as_mut_slice();
        right = right
            && if swapped {
                disturbed(heap, &mut work, solver, book, *call, *expected)
            } else {
                disturbed(heap, &mut work, other, book, *call, *expected)
            };
        swapped = !swapped;
    }
    let look = work.look();
    work.close().put_away();
    right.then_some(look)
}

// The first row that ends otherwise, with the second solver, or with either in turn.
fn first_wrong<E: Engine, F: Engine>(heap: Global) -> Result<Option<usize>, Fail> {
    let mut solver = Keeping::<E>::new(heap, ROOM)?;
    let mut other = Keeping::<F>::new(heap, ROOM)?;
    Ok(
        ROWS.iter().position(|row| {
            let expected = Some(Look {
                verdict: row.3,
                used: row.4,
                places: row.1,
            });
            plainly(heap, &mut other, row) != expected
                || otherwise(heap, &mut solver, &mut other, row) != expected
        }),
    )
}

#[test]
fn calls_in_turn(rt: HostRuntime) -> Result<(), Fail> {
    assert_eq!(rt; first_wrong::<Counter, Search>(rt.alloc())?, None);
    assert_eq!(rt; first_wrong::<Search, Counter>(rt.alloc())?, None);
    Ok(())
}
