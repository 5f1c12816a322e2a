// Loads a solver with lists of clauses and with a case, each whole or not at all.
#![tactic(auto)]

ghost use Rattle.std.specs.Prelude.{◌≡◌, [], ◌++◌, is_ok, if◌then◌else◌};
ghost use Rattle.system.specs.Preserving.{loaded};
ghost use Rattle.solver.specs.Answers.{need_of, spare};
ghost use Rattle.lists.specs.Lists.{clauses_of};

use cases::Case;
use faults::ListName;
use lists::ClauseList;
use solver::{Capacity, NoCapacity, Solver, has_spare};

// Adds the clauses of a list in order, or none of them where they do not all fit.
pub fn add_all<S: Solver>(solver: &mut S, list: ClauseList) -> Result<(), NoCapacity>
    ensures test { is_ok result ≡ spare (need_of (clauses_of list.entry)) (S.Solver.held solver.old) (S.Solver.capacity solver.old) }
    ensures held { S.Solver.held solver.new ≡ (if is_ok result then S.Solver.held solver.old ++ clauses_of list.entry else S.Solver.held solver.old) }
    ensures capacity { S.Solver.capacity solver.new ≡ S.Solver.capacity solver.old }
{
    if !has_spare(solver, need(list)) {
        return Err(NoCapacity);
    }
    for clause in list {
        solver.add(clause)?;
    }
    Ok(())
}

// The capacity that the clauses of a list take.
pub fn need(list: ClauseList) -> Capacity
    ensures { result ≡ need_of (clauses_of list.entry) }
{
    Capacity {
        clauses: list.len(),
        literals: list.literals(),
    }
}

// Has the solver hold just the step clauses and then the safety clauses of a case, or nothing where these do not all fit.
#[tactic(auto, using(crate::proofs::Loaded::both))]
pub fn load_case<S: Solver>(solver: &mut S, case: &Case) -> Result<(), NoCapacity>
    ensures test { is_ok result ≡ spare (need_of (loaded case.now [])) [] (S.Solver.capacity solver.old) }
    ensures held { S.Solver.held solver.new ≡ (if is_ok result then loaded case.now [] else []) }
    ensures capacity { S.Solver.capacity solver.new ≡ S.Solver.capacity solver.old }
{
    solver.wipe();
    add_all(solver, case.list(ListName::Step))?;
    let added = add_all(solver, case.list(ListName::Safety));
    if added.is_err() {
        solver.wipe();
    }
    added
}
