// What a solver holds of a case and its book, and the room that it needs.
ghost use Rattle.std.specs.Prelude.{◌≡◌, ◌≤◌, [], is_ok, if◌then◌else◌};
ghost use Rattle.solver.specs.Answers.{need_of, spare};
ghost use Rattle.faults.specs.Firsts.{unless};
ghost use Rattle.faults.specs.Refusals.{count_place};
ghost use Rattle.system.specs.Systems.{System};
ghost use Rattle.layout.specs.Reading.{field};
ghost use Rattle.layout.specs.Spelling.{spell, Admitted};
ghost use Rattle.books.specs.Books.{book_loaded, room_fault, told_room, told_room_fault};

use crate::entry::Entry;
use cases::Case;
use faults::{ListName, WorkFault};
use layout::{HEADER, read_field};
use loading::{add_all, load_case};
use solver::{Capacity, NoCapacity, Solver};

// How many places a book has at most.
pub const MOST_PLACES: usize = 8192;

// Whether a solver has room for a case, so many places, one clause more and 512 candidates: first whether there are too
// many places, then the room.
pub fn check_room<S: Solver>(solver: &S, case: &Case, places: usize) -> Result<(), WorkFault>
    ensures { result ≡ unless (room_fault (S.Solver.capacity solver.now) case.now places) tt }
{
    check_spelled_room(solver, case.bytes(), places)
}

// The same by what the header and the length of any bytes tell, which for the bytes of a case is what the case needs.
pub fn check_spelled_room<S: Solver>(
    solver: &S,
    bytes: &[u8],
    places: usize,
) -> Result<(), WorkFault>
    ensures value { result ≡ unless (told_room_fault (S.Solver.capacity solver.now) bytes.now places) tt }
    ensures law { (c : System) → Admitted c → bytes.now ≡ spell c → result ≡ unless (room_fault (S.Solver.capacity solver.now) c places) tt }
{
    if places > MOST_PLACES {
        return Err(WorkFault::TooManyPlaces);
    }
    let need = room_for(bytes, places);
    if need.clauses > solver.clause_capacity() || need.literals > solver.literal_capacity() {
        return Err(WorkFault::NoCapacity);
    }
    Ok(())
}

// The room for so many clauses as the header tells, so many places, one clause more and 512 candidates. Behind the header
// each clause has a length byte, and every other byte is a literal.
fn room_for(bytes: &[u8], places: usize) -> Capacity
    requires { places ≤ 8192 }
    ensures { result ≡ told_room bytes.now places }
{
    let start = count(bytes, ListName::Start);
    let step = count(bytes, ListName::Step);
    let safety = count(bytes, ListName::Safety);
    let clauses = start + step + safety;
    let literals = bytes.len().saturating_sub(HEADER + clauses);
    let more = places + 513;
    // stays a cast, here and below: no From leads from a u32 to a usize
    let relays = read_field(bytes, 0) as usize;
    Capacity {
        clauses: clauses + more,
        literals: literals + relays * more,
    }
}

// How many clauses the header gives a list.
fn count(bytes: &[u8], list: ListName) -> usize
    ensures { result ≡ field bytes.now (count_place list) }
{
    read_field(bytes, list.count_place()) as usize
}

// Has the solver hold just the start clauses of a case, or nothing where these do not all fit.
pub fn load_start<S: Solver>(solver: &mut S, case: &Case) -> Result<(), NoCapacity>
    ensures test { is_ok result ≡ spare (need_of case.now.start) [] (S.Solver.capacity solver.old) }
    ensures held { S.Solver.held solver.new ≡ (if is_ok result then case.now.start else []) }
    ensures capacity { S.Solver.capacity solver.new ≡ S.Solver.capacity solver.old }
{
    solver.wipe();
    add_all(solver, case.list(ListName::Start))
}

// Has the solver hold just the step clauses and the safety clauses of a case and then the entries in order, or nothing where
// these do not all fit.
pub fn load_book<S: Solver>(
    solver: &mut S,
    case: &Case,
    entries: &[Entry],
) -> Result<(), NoCapacity>
    ensures test { is_ok result ≡ spare (need_of (book_loaded case.now entries.now)) [] (S.Solver.capacity solver.old) }
    ensures held { S.Solver.held solver.new ≡ (if is_ok result then book_loaded case.now entries.now else []) }
    ensures capacity { S.Solver.capacity solver.new ≡ S.Solver.capacity solver.old }
{
    load_case(solver, case)?;
    for entry in entries {
        let mut clause = [0; 32];
        let count = entry.write_held(case, &mut clause);
        if solver.add(&clause[..count]).is_err() {
            solver.wipe();
            return Err(NoCapacity);
        }
    }
    Ok(())
}
