// The header of a case: nine 16-bit numbers, low byte first.
ghost use Rattle.std.specs.Prelude.{◌≡◌, Some, MatchResult, slice_index};
ghost use Rattle.layout.specs.Reading.{most_of, count_fault, header_fault, field};
ghost use Rattle.layout.specs.Headers.{SectionRead, HeaderRead};

use clauses::Scope;
use faults::{CaseFault, ListName};

// How many bytes a header has.
pub const HEADER: usize = 18;

// How many bytes a case has at most.
const MOST: usize = 32768;

// A section as the header states it: its list, the variables that its clauses may be about, how many clauses it has, and
// at which byte it begins.
#[derive(Clone, Copy, PartialEq, Eq, Debug)]
pub(crate) struct Section {
    pub(crate) list: ListName,
    pub(crate) scope: Scope,
    pub(crate) count: usize,
    pub(crate) at: usize,
}

// The sections of a header whose numbers are within their bounds; where a section begins is looked at with its bytes.
#[derive(Clone, Copy, PartialEq, Eq, Debug)]
pub(crate) struct Header {
    pub(crate) start: Section,
    pub(crate) step: Section,
    pub(crate) safety: Section,
}

// The byte at an index, or 0 past the end.
fn byte_at(bytes: &[u8], i: usize) -> u8
    ensures { result ≡ slice_index bytes.now i }
{
    bytes.get(i).copied().unwrap_or(0)
}

// The 16-bit number at an index, low byte first; bytes past the end count as 0.
fn word_at(bytes: &[u8], i: usize) -> u16
    ensures { result ≡ field bytes.now i }
{
    let low = byte_at(bytes, i);
    let high = byte_at(bytes, i.saturating_add(1));
    u16::from_le_bytes([low, high])
}

// The same as a wider number.
pub fn read_field(bytes: &[u8], i: usize) -> u32
    ensures { result ≡ field bytes.now i }
{
    u32::from(word_at(bytes, i))
}

// How many clauses a list has at most.
fn most(list: ListName) -> usize
    ensures { result ≡ most_of list }
{
    match list {
        ListName::Start | ListName::Safety => 256,
        ListName::Step => 1024,
    }
}

impl Section {
    // What the header states of a list, or that it has too many clauses.
    fn read(list: ListName, scope: Scope, bytes: &[u8]) -> Result<Section, CaseFault>
        ensures { MatchResult result (λ s. SectionRead list scope bytes.now s) (λ f. count_fault list bytes.now ≡ Some f) }
    {
        let count = usize::from(word_at(bytes, list.count_place()));
        if count > most(list) {
            return Err(CaseFault::Count(list));
        }
        let at = usize::from(word_at(bytes, list.offset_place()));
        Ok(Section {
            list,
            scope,
            count,
            at,
        })
    }
}

impl Header {
    // The header of the bytes, or its first fault.
    pub(crate) fn read(bytes: &[u8]) -> Result<Header, CaseFault>
        ensures { MatchResult result (λ h. HeaderRead bytes.now h) (λ f. header_fault bytes.now ≡ Some f) }
    {
        if bytes.len() < HEADER {
            return Err(CaseFault::Short(bytes.len()));
        }
        let relays = read_field(bytes, 0);
        if relays < 1 || relays > 32 {
            return Err(CaseFault::Relays);
        }
        let inputs = read_field(bytes, 2);
        if inputs > 64 {
            return Err(CaseFault::Inputs);
        }
        let start = Section::read(ListName::Start, Scope::Before(relays), bytes)?;
        let step = Section::read(ListName::Step, Scope::Across(relays, inputs), bytes)?;
        let safety = Section::read(ListName::Safety, Scope::Before(relays), bytes)?;
        let total = usize::from(word_at(bytes, 16));
        if total > MOST || total != bytes.len() {
            return Err(CaseFault::Total);
        }
        Ok(Header {
            start,
            step,
            safety,
        })
    }
}
