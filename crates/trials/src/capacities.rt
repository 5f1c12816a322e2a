// Both solvers at the edges of what they hold: without capacity, with it just reached, and cut beyond the end.
use counting::Counter;
use keeping::{Engine, Keeping};
use search::Search;
use solver::{Answer, Capacity, Solver};
use std::alloc::Global;
use std::test::Fail;

// What is asked of a solver.
#[derive(Clone, Copy)]
enum Call {
    Wipe,
    Add(&'static [u8]),
    Cut(usize),
    Ask(&'static [u8]),
}

// What it says: that it is done or has no capacity, or an answer. Each model below is the only one that leaves false what does
// not occur.
#[derive(Clone, Copy, PartialEq, Eq, Debug)]
enum Said {
    Done,
    Full,
    Yes(u64, u64),
    No,
}

// A call, what is said, and how many clauses and literals are held then.
type Row = (Call, Said, usize, usize);

// Neither clauses nor literals: nothing is ever held, and questions are answered all the same.
const NONE_ROWS: [Row; 9] = [
    (Call::Ask(&[]), Said::Yes(0, 0), 0, 0),
    (Call::Add(&[]), Said::Full, 0, 0),
    (Call::Add(&[255]), Said::Full, 0, 0),
    (Call::Cut(0), Said::Done, 0, 0),
    (Call::Cut(1), Said::Done, 0, 0),
    (Call::Ask(&[255]), Said::Yes(0, 0), 0, 0),
    (Call::Ask(&[254]), Said::Yes(0, 0x8000_0000_0000_0000), 0, 0),
    (Call::Ask(&[254, 255]), Said::No, 0, 0),
    (Call::Wipe, Said::Done, 0, 0),
];

// One clause and no literal: just the empty clause fits, once.
const NO_LITERAL_ROWS: [Row; 7] = [
    (Call::Add(&[0]), Said::Full, 0, 0),
    (Call::Add(&[]), Said::Done, 1, 0),
    (Call::Ask(&[]), Said::No, 1, 0),
    (Call::Add(&[]), Said::Full, 1, 0),
    (Call::Cut(1), Said::Done, 1, 0),
    (Call::Cut(0), Said::Done, 0, 0),
    (Call::Ask(&[]), Said::Yes(0, 0), 0, 0),
];

// Literals and no clause: not even the empty clause fits.
const NO_CLAUSE_ROWS: [Row; 3] = [
    (Call::Add(&[]), Said::Full, 0, 0),
    (Call::Add(&[0]), Said::Full, 0, 0),
    (Call::Ask(&[]), Said::Yes(0, 0), 0, 0),
];

// Three clauses and four literals, both just reached. What does not fit leaves what was held; a repeated literal counts
// each time; a cut beyond the end keeps all.
const REACHED_ROWS: [Row; 19] = [
    (Call::Add(&[0, 2]), Said::Done, 1, 2),
    (Call::Add(&[1, 3, 1]), Said::Full, 1, 2),
    (Call::Ask(&[0, 2]), Said::Yes(3, 0), 1, 2),
    (Call::Add(&[1, 1]), Said::Done, 2, 4),
    (Call::Add(&[3]), Said::Full, 2, 4),
    (Call::Ask(&[]), Said::Yes(2, 0), 2, 4),
    (Call::Cut(3), Said::Done, 2, 4),
    (Call::Cut(0xffff_ffff_ffff_ffff), Said::Done, 2, 4),
    (Call::Cut(2), Said::Done, 2, 4),
    (Call::Ask(&[3]), Said::No, 2, 4),
    (Call::Add(&[]), Said::Done, 3, 4),
    (Call::Add(&[]), Said::Full, 3, 4),
    (Call::Ask(&[]), Said::No, 3, 4),
    (Call::Cut(1), Said::Done, 1, 2),
    (Call::Ask(&[1]), Said::Yes(2, 0), 1, 2),
    (Call::Add(&[3, 255]), Said::Done, 2, 4),
    (Call::Ask(&[2, 254]), Said::No, 2, 4),
    (Call::Wipe, Said::Done, 0, 0),
    (
        Call::Ask(&[2, 254]),
        Said::Yes(2, 0x8000_0000_0000_0000),
        0,
        0,
    ),
];

// A clause of 255 literals fits in room for 255 and not in room for 254. All its literals are byte 255 or byte 254, the
// negated and the plain literal of the last variable.
const NEGATED: &[u8] = &[255; 255];

const PLAIN: &[u8] = &[254; 255];

const LONG_ROWS: [Row; 9] = [
    (Call::Add(NEGATED), Said::Done, 1, 255),
    (Call::Add(&[254]), Said::Full, 1, 255),
    (Call::Ask(&[]), Said::Yes(0, 0), 1, 255),
    (Call::Ask(&[254]), Said::No, 1, 255),
    (Call::Add(&[]), Said::Done, 2, 255),
    (Call::Cut(0), Said::Done, 0, 0),
    (Call::Add(PLAIN), Said::Done, 1, 255),
    (Call::Ask(&[]), Said::Yes(0, 0x8000_0000_0000_0000), 1, 255),
    (Call::Ask(&[255]), Said::No, 1, 255),
];

const TOO_LONG_ROWS: [Row; 3] = [
    (Call::Add(NEGATED), Said::Full, 0, 0),
    (Call::Ask(&[254]), Said::Yes(0, 0x8000_0000_0000_0000), 0, 0),
    (Call::Add(&[255]), Said::Done, 1, 1),
];

// What the tables are for: clauses and literals that fit, and what is then called.
const TABLES: [(usize, usize, &[Row]); 6] = [
    (0, 0, &NONE_ROWS),
    (1, 0, &NO_LITERAL_ROWS),
    (0, 4, &NO_CLAUSE_ROWS),
    (3, 4, &REACHED_ROWS),
    (2, 255, &LONG_ROWS),
    (2, 254, &TOO_LONG_ROWS),
];

fn told<S: Solver>(solver: &mut S, call: Call) -> Said {
    match call {
        Call::Wipe => solver.wipe(),
        Call::Cut(count) => solver.cut(count),
        Call::Add(clause) => {
            if solver.add(clause).is_err() {
                return Said::Full;
            }
        }
        Call::Ask(assumed) => {
            return match solver.query(assumed) {
                Answer::Yes(low, high) => Said::Yes(low, high),
                Answer::No => Said::No,
            };
        }
    }
    Said::Done
}

// The first row of which anything is otherwise, the capacities too.
fn first_row<S: Solver>(
    solver: &mut S,
    clauses: usize,
    literals: usize,
    rows: &[Row],
) -> Option<usize> {
    rows.iter().position(|(call, expected, held, size)| {
        told(solver, *call) != *expected
            || solver.clauses_held() != *held
            || solver.literals_held() != *size
            || solver.clause_capacity() != clauses
            || solver.literal_capacity() != literals
    })
}

// The first table of which a row is otherwise, and that row.
fn first_wrong<E: Engine>(heap: Global) -> Result<Option<(usize, usize)>, Fail> {
    for (table, (clauses, literals, rows)) in TABLES.iter().enumerate() {
        let room = Capacity {
            clauses: *clauses,
            literals: *literals,
        };
        let mut solver = Keeping::<E>::new(heap, room)?;
        if let Some(row) = first_row(&mut solver, *clauses, *literals, rows) {
            return Ok(Some((table, row)));
        }
    }
    Ok(None)
}

#[test]
fn counting_holds(rt: HostRuntime) -> Result<(), Fail> {
    assert_eq!(rt; first_wrong::<Counter>(rt.alloc())?, None);
    Ok(())
}

#[test]
fn propagating_holds(rt: HostRuntime) -> Result<(), Fail> {
    assert_eq!(rt; first_wrong::<Search>(rt.alloc())?, None);
    Ok(())
}
