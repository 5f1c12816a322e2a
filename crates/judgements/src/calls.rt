// The call for C. A case lies in bytes as the library reads it.
ghost use Rattle.std.specs.Prelude.{◌≡◌, IfOk, IfErr, Result};
ghost use Rattle.std.specs.Vec.{vec_len};
ghost use Rattle.faults.specs.declared.case.CaseFault.TheVariants.{NoMemory};
ghost use Rattle.faults.specs.declared.work.WorkFault.TheVariants.{InCase};
ghost use Rattle.faults.specs.declared.work.WorkFault.{WorkFault};
ghost use Rattle.judgements.specs.declared.told.JudgeTold.{JudgeTold};
ghost use Rattle.judgements.specs.Outcomes.{Outcome, Told};

use crate::told::JudgeTold;
use books::{Entry, MOST_PLACES};
use faults::{CaseFault, Fault, WorkFault};
use layout::check_case;
use propagating::Propagating;
use solver::Capacity;
use std::alloc::Global;
use tally::Tally;
use work::{Judged, judge};

// Room for any case and book: as many clauses as the three lists of a case may have, as many places as a book may have, one
// clause more and 512 candidates; as many literals as a case has bytes, and 32 for each place and each clause more.
const ROOM: Capacity = Capacity {
    clauses: 256 + 1024 + 256 + MOST_PLACES + 513,
    literals: 32768 + 32 * (MOST_PLACES + 513),
};

// A book of so many places.
fn blank_book(heap: Global, places: usize) -> Result<Vec<Entry>, WorkFault>
    ensures size { IfOk result (λ book. vec_len book ≡ places) }
    ensures scarce { IfErr result (λ f. f ≡ InCase NoMemory) }
{
    Ok(Vec::from_elem(heap, Entry::blank(), places).map_err(CaseFault::from)?)
}

// Judges the case that the bytes spell. Memory is asked for where nothing else is refused.
fn judged(heap: Global, bytes: &[u8], places: usize) -> Result<JudgeTold, WorkFault>
    ensures { Outcome bytes.now places result }
{
    check_case(bytes)?;
    if places > MOST_PLACES {
        return Err(WorkFault::TooManyPlaces);
    }
    let mut solver = Tally::new(Propagating::new(heap, ROOM).map_err(CaseFault::from)?);
    let mut book = blank_book(heap, places)?;
    let Judged { closed, refused: _ } = judge(heap, bytes, &mut solver, &mut book)?;
    let look = closed.look();
    closed.put_away();
    Ok(JudgeTold::new(look, solver.asked()))
}

// Judges the case that the bytes spell, with a book of so many places: takes turns until there is a verdict or no place is
// free, and tells what that came to.
//
// The result is 0 where it was judged, 1 where there was no memory, and else the number of the refusal, 32 for more than 8192
// places; what was told stays as it was then. How often the solver was asked is under no contract.
#[unsafe(no_mangle)]
pub extern "C" fn hokhnebi_judge(
    heap: Global,
    bytes: &[u8],
    places: usize,
    told: &mut JudgeTold,
) -> u32
    ensures { (r : Result JudgeTold WorkFault) × Outcome bytes.now places r × Told told.old r result told.new }
{
    match judged(heap, bytes, places) {
        Ok(judgement) => {
            *told = judgement;
            0
        }
        Err(fault) => fault.error_code(),
    }
}
