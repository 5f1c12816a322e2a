// What judging gave.
ghost use Rattle.std.specs.Prelude.{◌≡◌, IfOk, string_bytes};
ghost use Rattle.report.specs.Lines.{ending, judged_lines};

use crate::lines::{closed_line, entry_line, open_line, refusal_line};
use books::Entry;
use cases::Case;
use faults::WorkFault;
use histories::{Look, Verdict};
use std::alloc::{AllocError, Global};

// The lines of a judging: what was opened, the turns that stored the entries, and then the refusal, or the turn that decided
// without an entry and the closed work.
#[tactic(auto, using(crate::proofs::Turns::told_more, crate::proofs::Turns::told_all))]
pub fn judged_lines(
    heap: Global,
    refused: Option<WorkFault>,
    case: &Case,
    look: Look,
    entries: &[Entry],
) -> Result<String, AllocError>
    ensures { IfOk result (λ t. string_bytes t ≡ judged_lines refused case.now look entries.now) }
{
    let mut text = open_line(heap, case)?;
    for (i, entry) in entries.iter().enumerate() {
        let line = entry_line(heap, i + 1, entry)?;
        text.push_str(&line)?;
    }
    let end = ending(heap, refused, entries.len() + 1, look)?;
    text.push_str(&end)?;
    Ok(text)
}

// The refusal, or the turn of that number where it decided without an entry, and the closed work.
#[tactic(auto, using(crate::proofs::Turns::holds_then))]
fn ending(
    heap: Global,
    refused: Option<WorkFault>,
    turn: usize,
    look: Look,
) -> Result<String, AllocError>
    ensures { IfOk result (λ t. string_bytes t ≡ ending refused turn look) }
{
    if let Some(fault) = refused {
        return refusal_line(heap, &fault);
    }
    let closed = closed_line(heap, look)?;
    match look.verdict {
        Verdict::Holds => format!(in heap; "turn {turn} holds\n{closed}"),
        _ => Ok(closed),
    }
}
