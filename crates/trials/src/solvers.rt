// Both solvers, made and asked the smallest questions.
use counting::Counter;
use keeping::{Engine, Keeping};
use search::Search;
use solver::{Answer, Capacity, Smallest, Solver, smallest_questions};
use std::alloc::Global;
use std::test::Fail;

// Room for the clause of a literal and its negation.
const ROOMY: Capacity = Capacity {
    clauses: 1,
    literals: 2,
};

// Room for a clause of one literal, so not for that one.
const SCARCE: Capacity = Capacity {
    clauses: 1,
    literals: 1,
};

// What either solver says in both: each tries false first, so the model of a yes has no variable true.
const EXPECTED: (Smallest, Smallest) = (
    Smallest {
        nothing: Answer::Yes(0, 0),
        opposed: Answer::No,
        empty: Some(Answer::No),
        either: Some(Answer::Yes(0, 0)),
    },
    Smallest {
        nothing: Answer::Yes(0, 0),
        opposed: Answer::No,
        empty: Some(Answer::No),
        either: None,
    },
);

// What a solver says in either.
fn answers<E: Engine>(heap: Global) -> Result<(Smallest, Smallest), Fail> {
    let many = smallest_questions(&mut Keeping::<E>::new(heap, ROOMY)?);
    let few = smallest_questions(&mut Keeping::<E>::new(heap, SCARCE)?);
    Ok((many, few))
}

#[test]
fn counting_answers(rt: HostRuntime) -> Result<(), Fail> {
    assert_eq!(rt; answers::<Counter>(rt.alloc())?, EXPECTED);
    Ok(())
}

#[test]
fn propagating_answers(rt: HostRuntime) -> Result<(), Fail> {
    assert_eq!(rt; answers::<Search>(rt.alloc())?, EXPECTED);
    Ok(())
}
