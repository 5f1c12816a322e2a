// Entries of a book.
ghost use Rattle.std.specs.Prelude.{◌≡◌, ◌≤◌, take};
ghost use Rattle.system.specs.Literals.{bit};
ghost use Rattle.system.specs.Spelling.{spelled};
ghost use Rattle.books.specs.Entries.{kind_number, blank, entry_of, subgoal, held_clause};

use cases::Case;
use system::{is_on, literal_of, variable};

// What an entry is: unwritten memory, a clause that a turn found, a state that is still to be excluded, or a clause that a
// taking stored.
#[derive(Clone, Copy, PartialEq, Eq, Debug)]
pub enum Kind {
    Blank,
    Found,
    Subgoal,
    Taken,
}

impl Kind {
    // The number of the kind.
    pub fn number(self) -> u8
        ensures { result ≡ kind_number self }
    {
        match self {
            Kind::Blank => 0,
            Kind::Found => 1,
            Kind::Subgoal => 2,
            Kind::Taken => 3,
        }
    }
}

// One place of a book. Of a clause, first has the relays that occur, second those of them not negated, and third is 0. Of a
// subgoal, first is its state, second its successor, and third a safety clause's number, or 256 and an earlier subgoal's.
#[derive(Clone, Copy, PartialEq, Eq, Debug)]
pub struct Entry {
    pub kind: Kind,
    pub first: u32,
    pub second: u32,
    pub third: u16,
}

impl Entry {
    // What unwritten memory holds.
    pub fn blank() -> Entry
        ensures { result ≡ blank }
    {
        Entry {
            kind: Kind::Blank,
            first: 0,
            second: 0,
            third: 0,
        }
    }

    // The entry of a clause over relays. What is about no relay is left out.
    pub fn of_clause(kind: Kind, literals: &[u8]) -> Entry
        ensures { result ≡ entry_of kind literals.now }
    {
        let mut first = 0;
        let mut second = 0;
        for literal in literals {
            let relay = variable(*literal);
            if relay < 32 {
                first |= 1 << relay;
                if *literal % 2 == 0 {
                    second |= 1 << relay;
                }
            }
        }
        Entry {
            kind,
            first,
            second,
            third: 0,
        }
    }

    // The entry of a state, its successor and the number of the target there.
    pub fn subgoal(state: u32, successor: u32, target: u16) -> Entry
        ensures { result ≡ subgoal state successor target }
    {
        Entry {
            kind: Kind::Subgoal,
            first: state,
            second: successor,
            third: target,
        }
    }

    // Writes the clause by which a solver holds the entry, and says how many literals it has.
    pub fn write_held(&self, case: &Case, out: &mut [u8; 32]) -> usize
        ensures value { take result out.new ≡ held_clause case.now.n self.now }
        ensures bound { result ≤ 32 }
    {
        match self.kind {
            Kind::Subgoal => write_literals(case.relays(), u32::MAX, !self.first, out),
            Kind::Blank | Kind::Found | Kind::Taken => {
                write_literals(32, self.first, self.second, out)
            }
        }
    }
}

// Writes the literals of those of the first relays that lie inside, each with its sign, and says how many they are.
fn write_literals(relays: u32, inside: u32, signs: u32, out: &mut [u8; 32]) -> usize
    requires { relays ≤ 32 }
    ensures value { take result out.new ≡ spelled 0 relays (bit inside) (bit signs) }
    ensures bound { result ≤ 32 }
{
    let mut count = 0;
    for relay in 0..relays {
        // stays a cast: there are at most 32 relays
        let relay = relay as u8;
        if is_on(inside, relay) {
            out[count] = literal_of(relay, is_on(signs, relay));
            count += 1;
        }
    }
    count
}
