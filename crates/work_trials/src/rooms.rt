// The room that opening needs, and as many places as there may be.
use crate::works::{Call, NO_PLACE, blank_book, says};
use counting::Counter;
use histories::Verdict;
use keeping::{Engine, Keeping};
use samples::{ACCEPTED, MOST_RELAYS, NO_ROOM, SWAP, Said, TOO_MANY_RELAYS, TWO, held, said};
use search::Search;
use solver::{Capacity, Solver};
use std::alloc::Global;
use work::open;

// The bytes of the case, the places, the clauses and literals that fit, and what opening says.
type Row = (&'static [u8], usize, usize, usize, Said);

// More places than there may be.
const TOO_MANY: Said = Err((3, 32, 0));

const ROWS: &[Row] = &[
    // 7 clauses of 11 literals in the lists; places, one clause and 512 candidates, of 2 literals each
    (&TWO, 4, 524, 1045, ACCEPTED),
    (&TWO, 4, 523, 1045, NO_ROOM),
    (&TWO, 4, 524, 1044, NO_ROOM),
    (&TWO, 4, 523, 5000, NO_ROOM),
    (&TWO, 4, 5000, 1044, NO_ROOM),
    (&TWO, 4, 0, 0, NO_ROOM),
    (&TWO, 5, 524, 1045, NO_ROOM),
    (&TWO, 3, 524, 1045, ACCEPTED),
    (&TWO, 0, 520, 1037, ACCEPTED),
    (&TWO, 0, 519, 1037, NO_ROOM),
    (&TWO, 0, 520, 1036, NO_ROOM),
    // no clause in the lists, and 32 literals each
    (MOST_RELAYS, 1, 514, 16448, ACCEPTED),
    (MOST_RELAYS, 1, 514, 16447, NO_ROOM),
    (MOST_RELAYS, 1, 513, 16448, NO_ROOM),
    // as many places as there may be; one more comes before too little room
    (&SWAP, 8192, 8711, 17420, ACCEPTED),
    (&SWAP, 8192, 8710, 17420, NO_ROOM),
    (&SWAP, 8193, 9000, 20000, TOO_MANY),
    (&SWAP, 8193, 0, 0, TOO_MANY),
    (&SWAP, 0xffff_ffff_ffff_ffff, 8711, 17420, TOO_MANY),
    // what reading the case refuses comes before either
    (TOO_MANY_RELAYS, 8193, 0, 0, Err((2, 12, 0))),
    (&[], 0, 0, 0, Err((2, 11, 0))),
];

// Whether opening with the row's room says what the row says, and the solver, which holds the empty clause where that fits, then
// holds nothing, or where it is refused what it held.
fn opens<E: Engine>(heap: Global, row: &Row) -> Option<bool> {
    let (bytes, places, clauses, literals, expected) = *row;
    let mut solver = Keeping::<E>::new(heap, Capacity { clauses, literals }).ok()?;
    let _ = solver.add(&[]);
    let before = held(&solver);
    let answer = said(open(heap, bytes, &mut solver, places).map(|work| work.close().put_away()));
    let after = if answer.is_ok() { (0, 0) } else { before };
    Some(answer == expected && held(&solver) == after)
}

// Just the room for SWAP with as many places as there may be, and with 512.
const LARGEST: Capacity = Capacity {
    clauses: 8711,
    literals: 17420,
};

const FULL: Capacity = Capacity {
    clauses: 1031,
    literals: 2060,
};

// Whether a taking of two candidates and a turn are accepted in the largest book, and the case then holds.
fn holds_in_largest<E: Engine>(heap: Global) -> Option<bool> {
    let mut solver = Keeping::<E>::new(heap, LARGEST).ok()?;
    let mut book = blank_book(heap, 8192).ok()?;
    let mut work = open(heap, &SWAP, &mut solver, 8192).ok()?;
    let book = book.as_mut_slice();
    let both = Call::Take(&[1, 1, 1, 3]);
    let right = says(heap, &mut work, &mut solver, book, both, ACCEPTED)
        && says(heap, &mut work, &mut solver, book, Call::Turn, ACCEPTED);
    let look = work.look();
    work.close().put_away();
    Some(right && look.verdict == Verdict::Holds && look.used == 2 && held(&solver) == (6, 10))
}

// 512 times that relay 0 or relay 1 is off.
fn wide_candidates(heap: Global) -> Option<Vec<u8>> {
    let mut bytes = Vec::new(heap);
    for _ in 0..512 {
        bytes.extend_from_slice(&[2, 1, 3]).ok()?;
    }
    Some(bytes)
}

// Whether a book of 512 places is filled by one taking, another as long is refused for want of a place, and a turn holds.
fn holds_in_full<E: Engine>(heap: Global) -> Option<bool> {
    let mut solver = Keeping::<E>::new(heap, FULL).ok()?;
    let listed = wide_candidates(heap)?;
    let mut book = blank_book(heap, 512).ok()?;
    let mut work = open(heap, &SWAP, &mut solver, 512).ok()?;
    let book = book.as_mut_slice();
    let first = said(work.take(&mut solver, book, listed.as_slice()));
    let second = said(work.take(&mut solver, book, listed.as_slice()));
    let right = first == ACCEPTED
        && second == NO_PLACE
        && says(heap, &mut work, &mut solver, book, Call::Turn, ACCEPTED);
    let look = work.look();
    work.close().put_away();
    Some(
        right && look.verdict == Verdict::Holds && look.used == 512 && held(&solver) == (516, 1032),
    )
}

// The first row that opens otherwise, and whether both large books hold.
fn opened<E: Engine>(heap: Global) -> (Option<usize>, Option<bool>, Option<bool>) {
    let wrong = ROWS
        .iter()
        .position(|row| opens::<E>(heap, row) != Some(true));
    (wrong, holds_in_largest::<E>(heap), holds_in_full::<E>(heap))
}

#[test]
fn counting_opens(rt: HostRuntime) {
    assert_eq!(rt;
        opened::<Counter>(rt.alloc()),
        (None, Some(true), Some(true))
    );
}

#[test]
fn propagating_opens(rt: HostRuntime) {
    assert_eq!(rt;
        opened::<Search>(rt.alloc()),
        (None, Some(true), Some(true))
    );
}
