// What a case that was read answers: clauses by their number.
use crate::reading::case_of;
use cases::Case;
use faults::ListName;
use samples::{Refused, TWO, said};
use std::test::Fail;

// The place of a clause, its count of literals and the last of them.
type Answered = Result<(usize, usize, Option<u8>), Refused>;

// A list, the number of a clause, and what is answered.
const ROWS: [(ListName, usize, Answered); 8] = [
    (ListName::Start, 0, Ok((19, 1, Some(1)))),
    (ListName::Start, 1, Ok((21, 1, Some(3)))),
    (ListName::Start, 2, Err((3, 31, 2))),
    (ListName::Step, 0, Ok((23, 2, Some(0x41)))),
    (ListName::Step, 3, Ok((32, 2, Some(0x42)))),
    (ListName::Safety, 0, Ok((35, 1, Some(1)))),
    (ListName::Safety, 1, Err((3, 31, 1))),
    (ListName::Step, usize::MAX, Err((3, 31, usize::MAX))),
];

// What is answered, shortened so.
fn answered(case: &Case, list: ListName, number: usize) -> Answered {
    let clause = said(case.clause(list, number))?;
    Ok((
        clause.at,
        clause.literals.len(),
        clause.literals.last().copied(),
    ))
}

#[test]
fn clauses_by_number(rt: HostRuntime) -> Result<(), Fail> {
    let case = case_of(rt.alloc(), &TWO)?;
    let wrong = ROWS.iter().position(|(list, number, expected)| {
        answered(&case, *list, *number) != *expected
    });
    assert_eq!(rt; wrong, None);
    Ok(())
}
