// As many candidates as there may be, and more.
use crate::candidate_moves::descended;
use crate::moves::{Moves, marks_of, moving_case};
use crate::reading::case_of;
use candidate_sieve::CandidateSieve;
use cases::Case;
use clauses::MOST_CANDIDATES;
use literal_sieve::LiteralSieve;
use propagating::Propagating;
use samples::{Refused, TWO, off_candidates, said};
use sieve::Sieve;
use solver::{Capacity, Solver};
use std::alloc::Global;
use std::test::Fail;
use system::{is_on, literal_of};

// How many candidates of one literal, and how many places they make or how they are refused.
const COUNT_ROWS: [(usize, Result<usize, Refused>); 6] = [
    (0, Ok(0)),
    (1, Ok(1)),
    (511, Ok(511)),
    (512, Ok(512)),
    (513, Err((3, 21, 1024))),
    (600, Err((3, 21, 1024))),
];

// How many relays, those that are kept, where the others may become on or off, the marks given and those at the end, a bit for
// each of 32 candidates in turn. The candidates are the clauses of all the relays, each of which is false in just one state.
type Row = (u8, u32, u32, u32);

const ALL: u32 = 0xffff_ffff;

const ROWS: [Row; 14] = [
    // the 32 clauses of five relays, 16 times: all stay, since no state meets all, and where one is left out none stays
    (5, 0, ALL, ALL),
    (5, 0, 0xffff_fffe, 0),
    (5, 0, 0xfffd_ffff, 0),
    (5, 0, 0x7fff_ffff, 0),
    (5, 0, 0x0000_0001, 0),
    (5, 0, 0, 0),
    // all stay where relays are kept
    (5, 31, 0xfffd_ffff, 0xfffd_ffff),
    // without the first, all relays are on; if relay 0 can go off, just the second falls, which is false then
    (5, 30, 0xffff_fffe, 0xffff_fffc),
    // the 512 clauses of nine relays: without the first and each 32nd from there on, relays 0 to 4 are on
    (9, 0, 0xffff_fffe, 0),
    (9, 0, 0x7fff_ffff, 0),
    (9, 511, ALL, ALL),
    (9, 511, 0xffff_fffe, 0xffff_fffe),
    (9, 31, 0xffff_fffe, 0xffff_fffe),
    (9, 510, 0xffff_fffe, 0xffff_fffc),
];

// Room for two step clauses of two literals for each of nine relays, and for 512 candidates of nine.
const ROOM: Capacity = Capacity {
    clauses: 530,
    literals: 4644,
};

// The clauses of all the relays, and again from the first up to 512, by their plain literals: none, that of relay 0, and on.
fn all_clauses(heap: Global, relays: u8) -> Option<Vec<u8>> {
    let mut bytes = Vec::new(heap);
    for plain in 0..512u32 {
        bytes.push(relays).ok()?;
        for relay in 0..relays {
            bytes.push(literal_of(relay, is_on(plain, relay))).ok()?;
        }
    }
    Some(bytes)
}

// Whether the clauses end as the row says.
fn descends<S: Solver>(heap: Global, solver: &mut S, row: Row) -> Option<bool> {
    let (relays, kept, given, end) = row;
    let case = moving_case(heap, relays, Moves { kept, moved: 0 })?;
    let listed = all_clauses(heap, relays)?;
    let marks = marks_of(heap, 32, given, 512)?;
    let expected = marks_of(heap, 32, end, 512)?;
    let ended = descended(heap, solver, case.as_slice(), listed.as_slice(), marks)?;
    Some(ended == expected)
}

#[test]
fn clauses_of_all_relays(rt: HostRuntime) -> Result<(), Fail> {
    let heap = rt.alloc();
    let mut solver = Propagating::new(heap, ROOM)?;
    let wrong = ROWS
        .iter()
        .position(|row| descends(heap, &mut solver, *row) != Some(true));
    assert_eq!(rt; wrong, None);
    Ok(())
}

// How many places so many candidates make.
fn places(heap: Global, case: &Case, count: usize) -> Option<Result<usize, Refused>> {
    let listed = off_candidates(heap, 2, count)?;
    Some(match said(CandidateSieve::read(case, listed.as_slice())) {
        Ok(sieve) => Ok(sieve.places()),
        Err(refusal) => Err(refusal),
    })
}

#[test]
fn counts_read(rt: HostRuntime) -> Result<(), Fail> {
    let heap = rt.alloc();
    let case = case_of(heap, &TWO)?;
    let wrong = COUNT_ROWS.iter().position(|(count, expected)| places(heap, &case, *count)
        != Some(*expected));
    assert_eq!(rt; wrong, None);
    Ok(())
}

#[test]
fn most_places(rt: HostRuntime) {
    let literals = (LiteralSieve::limit(), LiteralSieve::MOST);
    let candidates = (CandidateSieve::limit(), CandidateSieve::MOST);
    assert_eq!(rt;
        (literals, candidates, MOST_CANDIDATES),
        ((32, 32), (512, 512), 512)
    );
}
