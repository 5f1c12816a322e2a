// The variables that the clauses of a list may be about.
ghost use Rattle.std.specs.Prelude.{◌≡◌, Some, MatchResult};
ghost use Rattle.clauses.specs.Reading.{in_scope, literal_fault};
ghost use Rattle.clauses.specs.Read.{LiteralPassed};

use faults::ClauseFault;
use system::variable;

// The relays before a step (how many there are), or all the variables of a step: relays before it, relays after it,
// and inputs (how many relays and inputs there are).
#[derive(Clone, Copy, PartialEq, Eq, Debug)]
pub enum Scope {
    Before(u32),
    Across(u32, u32),
}

impl Scope {
    // Whether a clause of the list may be about the variable.
    fn has(&self, variable: u8) -> bool
        ensures { result ≡ in_scope self.now variable }
    {
        let v = u32::from(variable);
        match self {
            Scope::Before(n) => v < *n,
            Scope::Across(n, m) => {
                v < *n
                    || v.checked_sub(32).is_some_and(|relay| relay < *n)
                    || v.checked_sub(64).is_some_and(|input| input < *m)
            }
        }
    }

    // Looks at the literal at index at, which is to be about a variable from low up: from where on the next is to be.
    pub(crate) fn check_literal(&self, at: usize, low: u8, literal: u8) -> Result<u8, ClauseFault>
        ensures { MatchResult result (λ next. LiteralPassed self.now at low literal next) (λ f. literal_fault self.now at low literal ≡ Some f) }
    {
        let v = variable(literal);
        if !self.has(v) {
            return Err(ClauseFault::Variable(at));
        }
        if v < low {
            return Err(ClauseFault::Order(at));
        }
        Ok(v + 1)
    }
}
