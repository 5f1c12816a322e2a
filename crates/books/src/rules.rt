// The rules of used entries.
ghost use Rattle.std.specs.Prelude.{◌≡◌, ◌^◌, nat_lt, nat_le, ◌-◌, ◌&&◌, cond, length, true};
ghost use Rattle.faults.specs.Firsts.{unless};
ghost use Rattle.books.specs.Books.{subgoal_at, clause_rule, rule, rules_fault};

use crate::entry::{Entry, Kind};
use cases::Case;
use faults::{ListName, WorkFault};

// Whether every entry keeps its rule, or the first that does not.
pub fn check_entries(case: &Case, entries: &[Entry]) -> Result<(), WorkFault>
    ensures { result ≡ unless (rules_fault case.now entries.now) tt }
{
    for (i, entry) in entries.iter().enumerate() {
        if !is_ruled(case, entries, i, entry) {
            return Err(WorkFault::AgainstRules(i));
        }
    }
    Ok(())
}

// Whether an entry keeps the rule of its place.
fn is_ruled(case: &Case, entries: &[Entry], number: usize, entry: &Entry) -> bool
    ensures { result ≡ rule case.now entries.now number entry.now }
{
    match entry.kind {
        Kind::Blank => false,
        Kind::Found | Kind::Taken => is_clause(case, entry),
        Kind::Subgoal => {
            is_state(case, entry.first)
                && is_state(case, entry.second)
                && is_target(case, entries, number, entry)
        }
    }
}

// Whether a clause entry is over the relays.
fn is_clause(case: &Case, entry: &Entry) -> bool
    ensures { result ≡ clause_rule case.now entry.now }
{
    is_state(case, entry.first) && entry.first & entry.second == entry.second && entry.third == 0
}

// Whether the number is a state.
fn is_state(case: &Case, state: u32) -> bool
    ensures { result ≡ nat_lt state (2 ^ case.now.n) }
{
    u64::from(state) < 1 << case.relays()
}

// Whether the third of a subgoal is the number of a safety clause, or that of an earlier subgoal at its successor.
fn is_target(case: &Case, entries: &[Entry], number: usize, entry: &Entry) -> bool
    ensures { result ≡ cond (nat_lt entry.now.third (length case.now.safety)) true (nat_le 256 entry.now.third && nat_lt (entry.now.third - 256) number && subgoal_at entries.now (entry.now.third - 256) entry.now.second) }
{
    let target = usize::from(entry.third);
    if target < case.list(ListName::Safety).len() {
        return true;
    }
    match target.checked_sub(256) {
        Some(goal) => goal < number && is_subgoal_at(entries, goal, entry.second),
        None => false,
    }
}

// Whether an entry is a subgoal whose state it is.
fn is_subgoal_at(entries: &[Entry], goal: usize, state: u32) -> bool
    ensures { result ≡ subgoal_at entries.now goal state }
{
    match entries.get(goal) {
        Some(entry) => matches!(entry.kind, Kind::Subgoal) && entry.first == state,
        None => false,
    }
}
