// Lines of text, each of which ends with a line feed.
ghost use Rattle.std.specs.Prelude.{◌≡◌, IfOk, string_bytes};
ghost use Rattle.faults.specs.Refusals.{work_refusal};
ghost use Rattle.report.specs.Lines.{open_line, refusal_line, entry_line, kind_word, verdict_word, closed_line};

use books::{Entry, Kind};
use cases::Case;
use faults::{Fault, ListName, WorkFault};
use histories::{Look, Verdict};
use std::alloc::{AllocError, Global};

// `open`, relays, inputs, and the counts of start, step and safety clauses.
pub(crate) fn open_line(heap: Global, case: &Case) -> Result<String, AllocError>
    ensures { IfOk result (λ t. string_bytes t ≡ open_line case.now) }
{
    let relays = case.relays();
    let inputs = case.inputs();
    let start = case.list(ListName::Start).len();
    let step = case.list(ListName::Step).len();
    let safety = case.list(ListName::Safety).len();
    // stays a format!: nothing else prints a case
    format!(in heap; "open {relays} {inputs} {start} {step} {safety}\n")
}

// `refused`, layer, number and place.
pub fn refusal_line(heap: Global, fault: &WorkFault) -> Result<String, AllocError>
    ensures { IfOk result (λ t. string_bytes t ≡ refusal_line (work_refusal fault.now)) }
{
    let refusal = fault.refusal();
    format!(in heap; "refused {refusal}\n")
}

// The word for a kind of entry.
fn kind_word(kind: Kind) -> &'static str
    ensures { result.now ≡ kind_word kind }
{
    match kind {
        Kind::Blank => "blank",
        Kind::Found => "found",
        Kind::Subgoal => "subgoal",
        Kind::Taken => "taken",
    }
}

// `turn`, its number, and kind, first and second of the entry that it stored.
pub(crate) fn entry_line(heap: Global, turn: usize, entry: &Entry) -> Result<String, AllocError>
    ensures { IfOk result (λ t. string_bytes t ≡ entry_line turn entry.now) }
{
    let kind = kind_word(entry.kind);
    let first = entry.first;
    let second = entry.second;
    format!(in heap; "turn {turn} {kind} {first} {second}\n")
}

// The word for a verdict.
fn verdict_word(verdict: Verdict) -> &'static str
    ensures { result.now ≡ verdict_word verdict }
{
    match verdict {
        Verdict::Undecided => "undecided",
        Verdict::Holds => "holds",
        Verdict::BrokenAt(_) | Verdict::BrokenByEntry => "broken",
    }
}

// `closed`, the verdict, and how many places are used and how many there are.
pub(crate) fn closed_line(heap: Global, look: Look) -> Result<String, AllocError>
    ensures { IfOk result (λ t. string_bytes t ≡ closed_line look) }
{
    let verdict = verdict_word(look.verdict);
    let used = look.used;
    let places = look.places;
    format!(in heap; "closed {verdict} {used} {places}\n")
}
