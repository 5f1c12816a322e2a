// The program's answer to any bytes: the judging of the case that they spell, with the propagating solver and 64 places.
#![tactic(auto)]

ghost use Rattle.std.specs.Prelude.{◌≡◌, ◌≢◌, ◌≤◌, IfOk, length, take, string_bytes};
ghost use Rattle.faults.specs.Refusals.{work_refusal};
ghost use Rattle.faults.specs.declared.case.CaseFault.TheVariants.{NoMemory};
ghost use Rattle.faults.specs.declared.work.WorkFault.TheVariants.{InCase};
ghost use Rattle.layout.specs.Reading.{read_case};
ghost use Rattle.report.specs.Lines.{refusal_line, judged_lines};
ghost use Rattle.answer.specs.Answer.{look_of, AnswerTo};

use books::Entry;
use faults::{CaseFault, WorkFault};
use propagating::Propagating;
use report::{judged_lines, refusal_line};
use solver::Capacity;
use std::alloc::{AllocError, Global};
use work::{Judged, judge};

// How many places the book has.
const PLACES: usize = 64;

// Room for any case: as many clauses as its three lists may have, a book of that many places, one clause more and 512
// candidates; as many literals as a case has bytes, and 32 for each place and each clause more.
const ROOM: Capacity = Capacity {
    clauses: 256 + 1024 + 256 + PLACES + 513,
    literals: 32768 + 32 * (PLACES + 513),
};

// Judges the case that the bytes spell, and tells what came of it, or why they spell none. Only want of memory leaves it
// unsaid.
pub fn answer(heap: Global, bytes: &[u8]) -> Result<String, AllocError>
    ensures { IfOk result (λ t. AnswerTo bytes.now (read_case bytes.now) (string_bytes t)) }
{
    let mut solver = Propagating::new(heap, ROOM)?;
    let mut book = [Entry::blank(); PLACES];
    match judge(heap, bytes, &mut solver, &mut book) {
        Ok(judged) => tell(heap, judged, &book),
        Err(fault) => refused(heap, fault),
    }
}

// Tells why the case was not opened, unless for want of memory.
fn refused(heap: Global, fault: WorkFault) -> Result<String, AllocError>
    ensures { IfOk result (λ t. (fault ≢ InCase NoMemory) × (string_bytes t ≡ refusal_line (work_refusal fault))) }
{
    match fault {
        WorkFault::InCase(CaseFault::NoMemory) => Err(AllocError),
        _ => refusal_line(heap, &fault),
    }
}

// Tells what judging gave, and puts the work away.
fn tell(heap: Global, judged: Judged, book: &[Entry]) -> Result<String, AllocError>
    requires { judged.closed.used ≤ length book.now }
    ensures { IfOk result (λ t. string_bytes t ≡ judged_lines judged.refused judged.closed.system (look_of judged.closed) (take judged.closed.used book.now)) }
{
    let Judged { closed, refused } = judged;
    let look = closed.look();
    let text = judged_lines(heap, refused, closed.case(), look, &book[..look.used]);
    closed.put_away();
    text
}
