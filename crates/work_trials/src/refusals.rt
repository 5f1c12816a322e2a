// What a turn and a taking refuse, alone and several at once: which comes first.
use crate::works::{Call, DECIDED, ROOM, SIZE, blank_book, says};
use books::Entry;
use counting::Counter;
use histories::Verdict;
use keeping::{Engine, Keeping};
use samples::{ACCEPTED, ANY_START, NO_ROOM, OFF_START, OPEN, SWAP, Said, TWO};
use search::Search;
use solver::{Capacity, Solver};
use std::alloc::Global;
use std::test::Fail;
use work::{Work, open};

// Whether a verdict was given, how many places are handed in, whether the used entry is blank, whether the solver has too
// little room, the call, and what is said. The work has four places.
type Row = (bool, usize, bool, bool, Call, Said);

// The used entry is against its rule.
const RULES: Said = Err((3, 44, 0));

// Lists with a fault: past the end, a relay too high, a relay again.
const CUT: Call = Call::Take(&[1, 3, 9]);

const HIGH: Call = Call::Take(&[1, 3, 1, 4]);

const AGAIN: Call = Call::Take(&[2, 2, 3]);

const TAKE: Call = Call::Take(&[1, 3]);

const ROWS: &[Row] = &[
    // a verdict was given
    (true, 4, false, false, Call::Turn, DECIDED),
    (true, 4, false, false, TAKE, DECIDED),
    (true, 4, false, false, Call::Take(&[]), DECIDED),
    (true, 4, false, false, CUT, DECIDED),
    (true, 5, false, false, Call::Turn, DECIDED),
    (true, 3, false, false, TAKE, DECIDED),
    (true, 4, true, false, Call::Turn, DECIDED),
    (true, 4, true, false, TAKE, DECIDED),
    (true, 4, false, true, Call::Turn, DECIDED),
    (true, 4, false, true, TAKE, DECIDED),
    (true, 0, true, true, Call::Turn, DECIDED),
    (true, 0, true, true, CUT, DECIDED),
    // a book of another size
    (false, 3, false, false, Call::Turn, SIZE),
    (false, 5, false, false, Call::Turn, SIZE),
    (false, 0, false, false, Call::Turn, SIZE),
    (false, 1, false, false, Call::Turn, SIZE),
    (false, 3, false, false, TAKE, SIZE),
    (false, 5, false, false, TAKE, SIZE),
    (false, 5, false, false, CUT, SIZE),
    (false, 3, true, false, Call::Turn, SIZE),
    (false, 5, true, false, TAKE, SIZE),
    (false, 5, false, true, Call::Turn, SIZE),
    (false, 3, false, true, TAKE, SIZE),
    (false, 5, true, true, Call::Turn, SIZE),
    (false, 3, true, true, HIGH, SIZE),
    // an entry against its rule
    (false, 4, true, false, Call::Turn, RULES),
    (false, 4, true, false, TAKE, RULES),
    (false, 4, true, false, AGAIN, RULES),
    (false, 4, true, true, Call::Turn, RULES),
    (false, 4, true, true, TAKE, RULES),
    (false, 4, true, true, CUT, RULES),
    // too little room
    (false, 4, false, true, Call::Turn, NO_ROOM),
    (false, 4, false, true, TAKE, NO_ROOM),
    (false, 4, false, true, Call::Take(&[]), NO_ROOM),
    (false, 4, false, true, CUT, NO_ROOM),
    (false, 4, false, true, HIGH, NO_ROOM),
    // a list with a fault
    (false, 4, false, false, CUT, Err((1, 17, 2))),
    (false, 4, false, false, HIGH, Err((1, 18, 3))),
    (false, 4, false, false, AGAIN, Err((1, 19, 2))),
    (
        false,
        4,
        false,
        false,
        Call::Take(&[1, 0x43]),
        Err((1, 18, 1)),
    ),
    // none of these
    (false, 4, false, false, Call::Turn, ACCEPTED),
    (false, 4, false, false, TAKE, ACCEPTED),
    (false, 4, false, false, Call::Take(&[1, 0]), ACCEPTED),
    (false, 4, false, false, Call::Take(&[]), ACCEPTED),
];

// One clause fewer, and one literal fewer, than TWO needs with four places: seven clauses of eleven literals, four entries, one
// clause more and 512 candidates, each of two literals.
const FEW_CLAUSES: Capacity = Capacity {
    clauses: 523,
    literals: 9000,
};

const FEW_LITERALS: Capacity = Capacity {
    clauses: 9000,
    literals: 1044,
};

// Whether the call says what the row says, of a work on TWO that has taken that relay 1 is off.
fn refuses<S: Solver>(
    heap: Global,
    solver: &mut S,
    small: &mut S,
    work: &mut Work,
    row: &Row,
) -> Option<bool> {
    let (decided, size, blank, scarce, call, expected) = *row;
    let mut book = [Entry::blank(); 5];
    work.take(solver, &mut book[..4], &[1, 3]).ok()?;
    if decided {
        work.turn(solver, &mut book[..4]).ok()?;
    }
    if blank {
        book[0] = Entry::blank();
    }
    let handed = &mut book[..size.min(5)];
    let asked = if scarce { small } else { solver };
    Some(says(heap, work, asked, handed, call, expected))
}

// The same, from opening to closing.
fn opened_refuses<S: Solver>(
    heap: Global,
    solver: &mut S,
    small: &mut S,
    row: &Row,
) -> Option<bool> {
    let mut work = open(heap, &TWO, solver, 4).ok()?;
    let right = refuses(heap, solver, small, &mut work, row);
    work.close().put_away();
    right
}

// Cases, how many turns are accepted, and the verdict then. Two calls more are refused.
type Deciding = (&'static [u8], usize, Verdict);

const VERDICT_ROWS: &[Deciding] = &[
    (&TWO, 2, Verdict::Holds),
    (&SWAP, 1, Verdict::Holds),
    (&OPEN, 2, Verdict::BrokenByEntry),
    (OFF_START, 1, Verdict::BrokenByEntry),
    (ANY_START, 0, Verdict::BrokenAt(1)),
];

// Whether the work that was opened comes to the verdict, and then refuses.
fn decides<S: Solver>(heap: Global, solver: &mut S, row: &Deciding) -> Option<bool> {
    let (bytes, turns, verdict) = *row;
    let mut book = blank_book(heap, 4).ok()?;
    let mut work = open(heap, bytes, solver, 4).ok()?;
    let book = book.as_mut_slice();
    let mut turned = true;
    for _ in 0..turns {
        turned = turned
            && work.look().verdict == Verdict::Undecided
            && work.turn(solver, book).is_ok();
    }
    let right = turned
        && work.look().verdict == verdict
        && says(heap, &mut work, solver, book, Call::Turn, DECIDED)
        && says(heap, &mut work, solver, book, TAKE, DECIDED);
    work.close().put_away();
    Some(right)
}

// The first row of each table that says otherwise, where the solver with too little room has this.
fn first_wrong<E: Engine>(
    heap: Global,
    few: Capacity,
) -> Result<(Option<usize>, Option<usize>), Fail> {
    let mut solver = Keeping::<E>::new(heap, ROOM)?;
    let mut small = Keeping::<E>::new(heap, few)?;
    let saying = ROWS.iter().position(|row| opened_refuses(heap, &mut solver, &mut small, row)
        != Some(true));
    let deciding = VERDICT_ROWS
        .iter()
        .position(|row| decides(heap, &mut solver, row) != Some(true));
    Ok((saying, deciding))
}

#[test]
fn counting_refuses(rt: HostRuntime) -> Result<(), Fail> {
    let heap = rt.alloc();
    assert_eq!(rt; first_wrong::<Counter>(heap, FEW_CLAUSES)?, (None, None));
    assert_eq!(rt; first_wrong::<Counter>(heap, FEW_LITERALS)?, (None, None));
    Ok(())
}

#[test]
fn propagating_refuses(rt: HostRuntime) -> Result<(), Fail> {
    let heap = rt.alloc();
    assert_eq!(rt; first_wrong::<Search>(heap, FEW_CLAUSES)?, (None, None));
    assert_eq!(rt; first_wrong::<Search>(heap, FEW_LITERALS)?, (None, None));
    Ok(())
}
