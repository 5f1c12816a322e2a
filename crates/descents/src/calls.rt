// The two calls for C. A case and a list of candidates lie in bytes as the library reads them. Marks are a byte a place, 1 for marked and 0 for
// not.
ghost use Rattle.std.specs.Prelude.{◌≡◌, ◌≢◌, ◌⊎◌, true, false, [], IfOk, IfErr, OnErr, Result};
ghost use Rattle.solver.specs.Answers.{need_of, spare};
ghost use Rattle.faults.specs.declared.case.CaseFault.TheVariants.{NoMemory};
ghost use Rattle.faults.specs.declared.work.WorkFault.{WorkFault};
ghost use Rattle.faults.specs.declared.work.WorkFault.TheVariants.{InCase, NoCapacity};
ghost use Rattle.system.specs.Preserving.{loaded};
ghost use Rattle.descents.specs.Codes.{code};
ghost use Rattle.descents.specs.Outcomes.{room, DescentTold, LiteralsTold, CandidatesTold};

use crate::outcome::code_of;
use candidate_sieve::CandidateSieve;
use cases::Case;
use faults::{CaseFault, WorkFault};
use literal_sieve::LiteralSieve;
use loading::load_case;
use propagating::Propagating;
use sieve::{Sieve, descend};
use solver::{Capacity, Solver};
use std::alloc::Global;
use tally::Tally;

// As many clauses as a case may have in its step list and its safety list, and a list of candidates; and as many literals as
// a case has bytes, and so many candidates over 32 relays.
const ROOM: Capacity = Capacity {
    clauses: 1024 + 256 + 512,
    literals: 32768 + 512 * 32,
};

// A solver that holds the step clauses and safety clauses of the case.
fn loaded_solver(heap: Global, case: &Case) -> Result<Tally<Propagating>, WorkFault>
    ensures held { IfOk result (λ s. ⟦<Tally<Propagating> as Solver>⟧.held s ≡ loaded case.now []) }
    ensures capacity { IfOk result (λ s. ⟦<Tally<Propagating> as Solver>⟧.capacity s ≡ room) }
    ensures fits { IfOk result (λ s. spare (need_of (loaded case.now [])) [] room ≡ true) }
    ensures scarce { IfErr result (λ f. (f ≡ InCase NoMemory) ⊎ ((f ≡ NoCapacity) × (spare (need_of (loaded case.now [])) [] room ≡ false))) }
{
    let made = Propagating::new(heap, ROOM).map_err(CaseFault::from)?;
    let mut solver = Tally::new(made);
    load_case(&mut solver, case).map_err(|_full| WorkFault::NoCapacity)?;
    Ok(solver)
}

// Descends over a sieve for a case, and then says how often the solver was asked.
#[tactic(auto, using(crate::proofs::Told::descent_refused))]
fn descended<V: Sieve>(
    heap: Global,
    case: &Case,
    sieve: &V,
    marks: &mut [u8],
    asked: &mut u64,
) -> Result<(), WorkFault>
    ensures told { DescentTold case.now (V.Sieve.places sieve.now) (V.Sieve.need sieve.now) (V.Sieve.closed sieve.now (loaded case.now [])) marks.old result marks.new }
    ensures asked { OnErr result (asked.new ≡ asked.old) }
{
    let mut solver = loaded_solver(heap, case)?;
    descend(sieve, &mut solver, marks)?;
    *asked = solver.asked();
    Ok(())
}

fn literal_descent(
    heap: Global,
    bytes: &[u8],
    state: u32,
    marks: &mut [u8],
    asked: &mut u64,
) -> Result<(), WorkFault>
    ensures told { LiteralsTold bytes.now state marks.old result marks.new }
    ensures asked { OnErr result (asked.new ≡ asked.old) }
{
    let case = Case::read(heap, bytes)?;
    let sieve = LiteralSieve::new(&case, state);
    descended(heap, &case, &sieve, marks, asked)
}

fn candidate_descent(
    heap: Global,
    bytes: &[u8],
    listed: &[u8],
    marks: &mut [u8],
    asked: &mut u64,
) -> Result<(), WorkFault>
    ensures told { CandidatesTold bytes.now listed.now marks.old result marks.new }
    ensures asked { OnErr result (asked.new ≡ asked.old) }
{
    let case = Case::read(heap, bytes)?;
    let sieve = CandidateSieve::read(&case, listed)?;
    descended(heap, &case, &sieve, marks, asked)
}

// Leaves marked, of the relays marked, the most whose literals false at the state make up a clause that is true after every
// step of the case from a safe state where it is true. Then says in `asked` how many questions the solver was asked.
//
// The result is 0 where the marks were descended, 1 where there was no memory, and else the number of the refusal, which
// leaves the marks as they were.
#[unsafe(no_mangle)]
pub extern "C" fn hokhnebi_literal_descent(
    heap: Global,
    bytes: &[u8],
    state: u32,
    marks: &mut [u8],
    asked: &mut u64,
) -> u32
    ensures told { (r : Result (Unit {0}) WorkFault) × (result ≡ code r) × LiteralsTold bytes.now state marks.old r marks.new }
    ensures asked { result ≢ 0 → asked.new ≡ asked.old }
{
    code_of(literal_descent(heap, bytes, state, marks, asked))
}

// Leaves marked, of the candidates marked, the most that are all true after every step of the case from a safe state where
// they are all true; with the same results.
#[unsafe(no_mangle)]
pub extern "C" fn hokhnebi_candidate_descent(
    heap: Global,
    bytes: &[u8],
    listed: &[u8],
    marks: &mut [u8],
    asked: &mut u64,
) -> u32
    ensures told { (r : Result (Unit {0}) WorkFault) × (result ≡ code r) × CandidatesTold bytes.now listed.now marks.old r marks.new }
    ensures asked { result ≢ 0 → asked.new ≡ asked.old }
{
    code_of(candidate_descent(heap, bytes, listed, marks, asked))
}
