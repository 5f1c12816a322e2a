// Transition systems over relays. What a literal, a clause, a state, a step and a run are stands in specs/; here is what
// code shares on literals, clauses and states, and the laws that every layer above rests on.
#![tactic(auto)]

ghost use Rattle.std.specs.Prelude.{◌≡◌};
ghost use Rattle.system.specs.Literals.{variable_of};
ghost use Rattle.system.specs.Laws.{TruthByOccurring, RunPrefix, InductiveReached, SafeWhenReached};
ghost use Rattle.system.specs.Preserving.{PreservedIsConsecution};

mod states;

pub use states::{is_on, is_true, literal_of};

// The variable that a literal byte is about.
pub fn variable(literal: u8) -> u8
    ensures { result ≡ variable_of literal }
{
    literal / 2
}

// The laws of systems: truth depends only on the variables that occur; a run cut short is a run; what is inductive is
// true in every reached state; a system is safe exactly when no reached state is broken; where a system's step
// clauses and further ones over relays are held, the clauses over relays that are preserved are exactly those of which
// consecution relative to the further ones holds.
pub fn laws()
    ensures truth { TruthByOccurring }
    ensures prefix { RunPrefix }
    ensures inductive { InductiveReached }
    ensures safe { SafeWhenReached }
    ensures preserved { PreservedIsConsecution }
{}
