// What sifting and the descent refuse: marks, and a solver with too little room. Either leaves the marks and what the solver
// holds, where it refuses and also where the marks are closed.
use crate::reading::case_of;
use candidate_sieve::CandidateSieve;
use cases::Case;
use counting::Counter;
use keeping::{Engine, Keeping};
use literal_sieve::LiteralSieve;
use loading::load_case;
use samples::{ACCEPTED, NO_ROOM, SWAP, Said, TWO, held, said};
use search::Search;
use sieve::{Sieve, descend};
use solver::{Capacity, Solver};
use std::alloc::Global;
use std::test::Fail;

// The clauses and literals that fit, the marks, and what is said.
type Row = (usize, usize, &'static [u8], Said);

const WRONG_NUMBER: Said = Err((3, 33, 0));

// Of the literals of TWO false at state 2, where all marks are closed. Five clauses of nine literals are held, and one clause
// and two literals are needed.
const LITERAL_ROWS: [Row; 26] = [
    // just the room that is needed, and more
    (6, 11, &[1, 1], ACCEPTED),
    (6, 11, &[1, 0], ACCEPTED),
    (6, 11, &[0, 0], ACCEPTED),
    (7, 12, &[1, 1], ACCEPTED),
    // none, one fewer and one more
    (6, 11, &[], WRONG_NUMBER),
    (6, 11, &[1], WRONG_NUMBER),
    (6, 11, &[1, 1, 1], WRONG_NUMBER),
    // and a bad mark
    (6, 11, &[2], WRONG_NUMBER),
    (6, 11, &[1, 2, 0], WRONG_NUMBER),
    (6, 11, &[1, 1, 255], WRONG_NUMBER),
    // the first bad mark
    (6, 11, &[2, 1], Err((3, 33, 0))),
    (6, 11, &[255, 0], Err((3, 33, 0))),
    (6, 11, &[255, 2], Err((3, 33, 0))),
    (6, 11, &[1, 2], Err((3, 33, 1))),
    (6, 11, &[0, 255], Err((3, 33, 1))),
    // room for one clause fewer, for one literal fewer and for none, whatever is marked
    (5, 11, &[1, 1], NO_ROOM),
    (6, 10, &[1, 1], NO_ROOM),
    (6, 10, &[1, 0], NO_ROOM),
    (5, 9, &[0, 0], NO_ROOM),
    (5, 100, &[1, 1], NO_ROOM),
    (100, 10, &[1, 1], NO_ROOM),
    // marks come before room
    (5, 11, &[1, 2], Err((3, 33, 1))),
    (6, 10, &[1, 255], Err((3, 33, 1))),
    (6, 10, &[2, 0], Err((3, 33, 0))),
    (5, 11, &[1], WRONG_NUMBER),
    (5, 9, &[], WRONG_NUMBER),
];

// Relay 0 is off, relay 1 is off, relay 0 is on.
const CANDIDATES: [u8; 6] = [1, 1, 1, 3, 1, 0];

// Of these over SWAP. Four clauses of eight literals are held, and three clauses and three literals are needed.
const CANDIDATE_ROWS: [Row; 27] = [
    (7, 11, &[1, 1, 0], ACCEPTED),
    (7, 11, &[1, 1, 1], ACCEPTED),
    (7, 11, &[1, 0, 1], ACCEPTED),
    (7, 11, &[0, 0, 0], ACCEPTED),
    (8, 12, &[1, 1, 0], ACCEPTED),
    (7, 11, &[], WRONG_NUMBER),
    (7, 11, &[1, 1], WRONG_NUMBER),
    (7, 11, &[1, 1, 0, 0], WRONG_NUMBER),
    (7, 11, &[1, 2], WRONG_NUMBER),
    (7, 11, &[1, 1, 255, 0], WRONG_NUMBER),
    (7, 11, &[1, 1, 0, 2], WRONG_NUMBER),
    (7, 11, &[2, 1, 0], Err((3, 33, 0))),
    (7, 11, &[255, 2, 2], Err((3, 33, 0))),
    (7, 11, &[1, 2, 0], Err((3, 33, 1))),
    (7, 11, &[0, 255, 2], Err((3, 33, 1))),
    (7, 11, &[1, 1, 255], Err((3, 33, 2))),
    (6, 11, &[1, 1, 0], NO_ROOM),
    (7, 10, &[1, 1, 0], NO_ROOM),
    (7, 10, &[0, 1, 0], NO_ROOM),
    (4, 8, &[0, 0, 0], NO_ROOM),
    (6, 100, &[1, 1, 0], NO_ROOM),
    (100, 10, &[1, 1, 0], NO_ROOM),
    (6, 11, &[1, 1, 2], Err((3, 33, 2))),
    (7, 10, &[1, 255, 0], Err((3, 33, 1))),
    (4, 8, &[2, 0, 0], Err((3, 33, 0))),
    (6, 11, &[1, 1], WRONG_NUMBER),
    (4, 8, &[], WRONG_NUMBER),
];

// Whether both calls say what the row says, and each leaves the marks and how much is held.
fn both_say<V: Sieve, S: Solver>(sieve: &V, solver: &mut S, marks: &mut [u8], row: &Row) -> bool {
    let before = held(solver);
    let sifted = said(sieve.sift(solver, marks).map(|_sifting| ()));
    let left = *marks == *row.2 && held(solver) == before;
    let descended = said(descend(sieve, solver, marks));
    left && *marks == *row.2 && held(solver) == before && sifted == row.3 && descended == row.3
}

// The same of a solver with the row's room that is first loaded with the case.
fn loaded_says<E: Engine, V: Sieve>(
    heap: Global,
    case: &Case,
    sieve: &V,
    row: &Row,
) -> Option<bool> {
    let room = Capacity {
        clauses: row.0,
        literals: row.1,
    };
    let mut solver = Keeping::<E>::new(heap, room).ok()?;
    load_case(&mut solver, case).ok()?;
    let mut marks = Vec::from_slice(heap, row.2).ok()?;
    Some(both_say(sieve, &mut solver, marks.as_mut_slice(), row))
}

// The first row of each table that says otherwise.
fn first_wrong<E: Engine>(heap: Global) -> Result<(Option<usize>, Option<usize>), Fail> {
    let two = case_of(heap, &TWO)?;
    let swap = case_of(heap, &SWAP)?;
    let literals = LiteralSieve::new(&two, 2);
    let candidates = CandidateSieve::read(&swap, &CANDIDATES).map_err(|_| Fail::new("refused"))?;
    let literal = LITERAL_ROWS.iter().position(|row| loaded_says::<E, _>(heap, &two, &literals, row)
        != Some(true));
    let candidate = CANDIDATE_ROWS.iter().position(|row| loaded_says::<E, _>(
        heap,
        &swap,
        &candidates,
        row,
    ) != Some(true));
    Ok((literal, candidate))
}

#[test]
fn counting_refuses(rt: HostRuntime) -> Result<(), Fail> {
    assert_eq!(rt; first_wrong::<Counter>(rt.alloc())?, (None, None));
    Ok(())
}

#[test]
fn propagating_refuses(rt: HostRuntime) -> Result<(), Fail> {
    assert_eq!(rt; first_wrong::<Search>(rt.alloc())?, (None, None));
    Ok(())
}
