// Lists in bytes are clauses one after another, each one length byte and then its literals, a byte each: twice the
// variable, and 1 more where it is negated. A question is spelled as a clause is, and has the literals to assume.
ghost use Rattle.std.specs.Prelude.{◌≡◌, ℕ, ◌<◌, ◌≤◌, List, [], length, is_ok, IfOk, OnOk, OnErr};
ghost use Rattle.system.specs.Literals.{size};
ghost use Rattle.lists.specs.Lists.{clauses_of};
ghost use Rattle.lists.specs.Spelling.{clauses_in};
ghost use Rattle.exported.specs.Replies.{Replied};
ghost use Rattle.solver.specs.Answers.{need_of, spare};
ghost use Rattle.exported.specs.Codes.{outcome};

use crate::fault::{AskFault, code_of};
use crate::reply::Reply;
use counting::Counting;
use lists::ClauseList;
use loading::add_all;
use propagating::Propagating;
use solver::{Capacity, NoCapacity, Solver};
use std::alloc::{AllocError, Global};

// Has the solver hold just the clauses, or says that they do not all fit.
fn load<S: Solver>(solver: &mut S, list: ClauseList) -> Result<(), NoCapacity>
    ensures held { OnOk result (S.Solver.held solver.new ≡ clauses_of list.entry) }
    ensures test { is_ok result ≡ spare (need_of (clauses_of list.entry)) [] (S.Solver.capacity solver.old) }
{
    solver.wipe();
    add_all(solver, list)
}

// Asks one question for each reply.
fn ask<S: Solver>(solver: &mut S, list: ClauseList, replies: &mut [Reply])
    ensures { length (clauses_of list.entry) ≡ length replies.old → Replied (S.Solver.held solver.old) (clauses_of list.entry) replies.new }
{
    // stays a next by hand: a zip was tried, and a proof knows nothing of what is written through one
    let mut questions = list;
    for reply in replies.iter_mut() {
        let Some(assumed) = questions.next() else {
            return;
        };
        *reply = Reply::from(solver.query(assumed));
    }
}

// Has the solver, where there was memory for one, hold just the clauses, and asks the questions, one for each reply.
fn asked<S: Solver + Drop>(
    made: Result<S, AllocError>,
    held: ClauseList,
    questions: &[u8],
    replies: &mut [Reply],
) -> Result<(), AskFault>
    ensures replied { OnOk result (Replied (clauses_of held.entry) (clauses_in (length replies.old) questions.now) replies.new) }
    ensures outcome { IfOk made (λ s. result ≡ outcome (clauses_of held.entry) (S.Solver.capacity s)) }
    ensures memory { OnErr made (result ≡ Err AskFault.NoMemory) }
{
    let mut solver = made?;
    load(&mut solver, held)?;
    let count = replies.len();
    ask(&mut solver, ClauseList::over(count, questions), replies);
    Ok(())
}

// Has a propagating solver hold clauses, with room for `clauses` of them and for `literals` literals together, and
// answers a question about them for each reply.
//
// Exactly `clauses` clauses are read from the bytes of `held`, and bytes beyond them are ignored. As many questions are
// read from the bytes of `questions` as there are replies. A clause or a question that the bytes no longer have is read
// as the empty one, and one that they have only in part as that part. The empty clause is never true, and the empty
// question assumes nothing.
//
// The result is 0 where each question has its reply, 1 where there was no memory, and 2 where the clauses have more
// literals than there is room for. After 1 or 2 the replies mean nothing. It stays a number, since C reads it.
#[tactic(auto, using(crate::proofs::Fitting::filling))]
#[unsafe(no_mangle)]
pub extern "C" fn hokhnebi_propagating(
    heap: Global,
    clauses: usize,
    literals: usize,
    held: &[u8],
    questions: &[u8],
    replies: &mut [Reply],
) -> u32
    ensures replied { result ≡ 0 → Replied (clauses_in clauses held.now) (clauses_in (length replies.old) questions.now) replies.new }
    ensures fit { result ≡ 0 → size (clauses_in clauses held.now) ≤ literals }
    ensures full { result ≡ 2 → literals < size (clauses_in clauses held.now) }
    ensures code { result ≤ 2 }
{
    let made = Propagating::new(heap, Capacity { clauses, literals });
    code_of(asked(made, ClauseList::over(clauses, held), questions, replies))
}

// The same with a counting solver. The two stay beside one another, since C calls each by its name.
#[tactic(auto, using(crate::proofs::Fitting::filling))]
#[unsafe(no_mangle)]
pub extern "C" fn hokhnebi_counting(
    heap: Global,
    clauses: usize,
    literals: usize,
    held: &[u8],
    questions: &[u8],
    replies: &mut [Reply],
) -> u32
    ensures replied { result ≡ 0 → Replied (clauses_in clauses held.now) (clauses_in (length replies.old) questions.now) replies.new }
    ensures fit { result ≡ 0 → size (clauses_in clauses held.now) ≤ literals }
    ensures full { result ≡ 2 → literals < size (clauses_in clauses held.now) }
    ensures code { result ≤ 2 }
{
    let made = Counting::new(heap, Capacity { clauses, literals });
    code_of(asked(made, ClauseList::over(clauses, held), questions, replies))
}
