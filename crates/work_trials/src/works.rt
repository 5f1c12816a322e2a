// What the tables of the work share: books, room for a small case, entries as tuples, and calls with what they say.
use books::{Entry, Kind};
use histories::Verdict;
use samples::{Said, held, said};
use solver::{Capacity, Solver};
use std::alloc::{AllocError, Global};
use work::Work;

// Room for every case of these tables with the places that it gets, but for the largest book.
pub const ROOM: Capacity = Capacity {
    clauses: 1200,
    literals: 20000,
};

// What a call says after a verdict.
pub const DECIDED: Said = Err((3, 41, 0));

// What a call says where the book has another number of places.
pub const SIZE: Said = Err((3, 42, 0));

// What a call says where no place is free.
pub const NO_PLACE: Said = Err((3, 43, 0));

// Kind, first, second and third of an entry.
pub type Written = (Kind, u32, u32, u16);

// The entry that a tuple stands for.
pub fn entry_of(written: Written) -> Entry {
    let (kind, first, second, third) = written;
    Entry {
        kind,
        first,
        second,
        third,
    }
}

// A book of so many blank places.
pub fn blank_book(heap: Global, places: usize) -> Result<Vec<Entry>, AllocError> {
    vec![in heap; Entry::blank(); places]
}

// Writes the entries over the book from the place on.
pub fn write_entries(book: &mut [Entry], at: usize, entries: &[Written]) {
    for (place, written) in book.iter_mut().skip(at).zip(entries) {
        *place = entry_of(*written);
    }
}

// Whether the book begins with the entries.
pub fn begins_with(book: &[Entry], entries: &[Written]) -> bool {
    entries.len() <= book.len()
        && book
            .iter()
            .zip(entries)
            .all(|(entry, written)| *entry == entry_of(*written))
}

// A call on an open work.
#[derive(Clone, Copy)]
pub enum Call {
    // A turn.
    Turn,
    // A taking of these candidates.
    Take(&'static [u8]),
}

// What the call says.
pub fn make<S: Solver>(work: &mut Work, solver: &mut S, book: &mut [Entry], asked: Call) -> Said {
    said(match asked {
        Call::Turn => work.turn(solver, book),
        Call::Take(listed) => work.take(solver, book, listed),
    })
}

// Whether a call with a solver that holds some clause says this. Refused, it leaves work and book, and what the solver holds
// unless it is for want of a place. Otherwise the solver holds nothing, unless the verdict is that the case holds.
pub fn says<S: Solver>(
    heap: Global,
    work: &mut Work,
    solver: &mut S,
    book: &mut [Entry],
    asked: Call,
    expected: Said,
) -> bool {
    let Ok(copy) = Vec::from_slice(heap, book) else {
        return false;
    };
    solver.wipe();
    let loaded = solver.add(&[255]).is_ok() && solver.add(&[0, 3]).is_ok();
    let before = (work.look(), held(solver));
    let answer = make(work, solver, book, asked);
    let left = answer.is_ok() || (work.look() == before.0 && *book == *copy.as_slice());
    let holds = match answer {
        Ok(()) => work.look().verdict == Verdict::Holds || held(solver) == (0, 0),
        Err((3, 43, 0)) => held(solver) == (0, 0),
        Err(_) => held(solver) == before.1,
    };
    loaded && answer == expected && left && holds
}
