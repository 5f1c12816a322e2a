// Both solvers over all 128 variables. Where more than one valuation serves, both give the first, the lowest variable slowest
// and false first. The counting one goes through them in this order, so it is asked only what an early one answers.
use counting::Counting;
use propagating::Propagating;
use samples::held;
use solver::{Answer, Capacity, NoCapacity, Solver};
use std::test::Fail;

// Room for just the clauses below: the chain, the clause of all variables, and two of two literals.
const CAPACITY: Capacity = Capacity {
    clauses: 130,
    literals: 386,
};

// Assumed literals and the answer.
type Row = (&'static [u8], Answer);

const ALL: u64 = 0xffff_ffff_ffff_ffff;

const HIGHEST: u64 = 0x8000_0000_0000_0000;

// Where each variable that is true makes the next one true: literals of the last variables.
const LAST_ROWS: [Row; 4] = [
    (&[], Answer::Yes(0, 0)),
    (&[255], Answer::Yes(0, 0)),
    (&[254], Answer::Yes(0, HIGHEST)),
    (&[244], Answer::Yes(0, 0xfc00_0000_0000_0000)),
];

// There too: the first variable, and those on both sides of the middle.
const FIRST_ROWS: [Row; 7] = [
    (&[0], Answer::Yes(ALL, ALL)),
    (&[1, 2], Answer::Yes(ALL - 1, ALL)),
    (&[126], Answer::Yes(HIGHEST, ALL)),
    (&[127, 128], Answer::Yes(0, ALL)),
    (&[129, 255], Answer::Yes(0, 0)),
    (&[0, 255], Answer::No),
    (&[126, 129], Answer::No),
];

// Where moreover some variable is true, and so the last.
const SOME_ROWS: [Row; 2] = [
    (&[253], Answer::Yes(0, HIGHEST)),
    (&[], Answer::Yes(0, HIGHEST)),
];

// Where moreover the last variable makes the first both true and false.
const NONE_ROWS: [Row; 3] = [
    (&[], Answer::No),
    (&[254], Answer::No),
    (&[255], Answer::No),
];

// Adds a clause for each variable but the last: the next is true where it is.
fn add_chain<S: Solver>(solver: &mut S) -> Result<(), NoCapacity> {
    for variable in 0..127u8 {
        solver.add(&[variable * 2 + 1, variable * 2 + 2])?;
    }
    Ok(())
}

// Adds the clause of all variables.
fn add_some<S: Solver>(solver: &mut S) -> Result<(), NoCapacity> {
    let mut literals = [0; 128];
    for variable in 0..128u8 {
        literals[usize::from(variable)] = variable * 2;
    }
    solver.add(&literals)
}

// The first row that is answered otherwise.
fn first_wrong<S: Solver>(solver: &mut S, rows: &[Row]) -> Option<usize> {
    rows.iter()
        .position(|(assumed, expected)| solver.query(assumed) != *expected)
}

// The first wrong row of each of three tables.
type Wrong = (Option<usize>, Option<usize>, Option<usize>);

// The first rows that are answered otherwise: of the last variables and of more where the chain is held, and where also some is true.
fn wrong_in_turn<S: Solver>(solver: &mut S, more: &[Row]) -> Result<Wrong, NoCapacity> {
    add_chain(solver)?;
    let last = first_wrong(solver, &LAST_ROWS);
    let first = first_wrong(solver, more);
    add_some(solver)?;
    Ok((last, first, first_wrong(solver, &SOME_ROWS)))
}

// The first row that is answered otherwise where all are held that fit, how much that is, and whether not even the empty clause fits.
fn full<S: Solver>(solver: &mut S) -> Result<(Option<usize>, (usize, usize), bool), NoCapacity> {
    solver.add(&[255, 0])?;
    solver.add(&[255, 1])?;
    let wrong = first_wrong(solver, &NONE_ROWS);
    Ok((wrong, held(solver), solver.add(&[]).is_err()))
}

#[test]
fn counting_counts(rt: HostRuntime) -> Result<(), Fail> {
    let mut solver = Counting::new(rt.alloc(), CAPACITY)?;
    assert_eq!(rt; wrong_in_turn(&mut solver, &[]), Ok((None, None, None)));
    Ok(())
}

#[test]
fn propagating_searches(rt: HostRuntime) -> Result<(), Fail> {
    let mut solver = Propagating::new(rt.alloc(), CAPACITY)?;
    let said = (wrong_in_turn(&mut solver, &FIRST_ROWS), full(&mut solver));
    assert_eq!(rt;
        said,
        (Ok((None, None, None)), Ok((None, (130, 386), true)))
    );
    Ok(())
}
