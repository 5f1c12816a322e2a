// Sets of literals, and how a clause stands under a partial assignment.
ghost use Rattle.std.specs.Prelude.{◌≡◌, ℕ, ◌/◌, ◌%◌, Bool, true, false, not, ◌&&◌, ◌||◌, MatchBool, ◌==◌};
ghost use Rattle.system.specs.Literals.{bit};
ghost use Rattle.masks.specs.Masks.{inside, with_value, with_literal, mask_of, Meets, Apart};
ghost use Rattle.masks.specs.Standings.{Stands};

use crate::bits::{has_variable, set_of, without};
use crate::literal::Literal;

// A set of literals: the variables that it has plain, and those that it has negated, by bits.
// It is a clause, or the literals that a partial assignment makes true.
#[derive(Clone, Copy, PartialEq, Eq, Debug)]
pub struct ClauseMask {
    pub positive: u128,
    pub negative: u128,
}

// How a clause stands under a partial assignment: a literal is true; none is and more than one may become true; just this
// one may become true; all are false.
#[derive(Clone, Copy, PartialEq, Eq, Debug)]
pub enum Standing {
    True,
    Open,
    Forces(Literal),
    False,
}

// The literals of a clause.
impl<'a> From<&'a [u8]> for ClauseMask {
    ghost from_gives = { λ clause m. m ≡ mask_of clause.now };

    fn from(clause: &'a [u8]) -> ClauseMask {
        clause.iter().fold(
            ClauseMask::NONE,
            |mask, literal| mask.with_literal(*literal),
        )
    }
}

impl ClauseMask {
    // No literal.
    pub const NONE: ClauseMask = ClauseMask {
        positive: 0,
        negative: 0,
    };

    // The set with one more literal. Variables count modulo 128.
    pub fn with_value(self, literal: Literal) -> ClauseMask
        ensures { result ≡ with_value self (literal.variable % 128) literal.value }
    {
        let variable = set_of(literal.variable);
        if literal.value {
            ClauseMask {
                positive: self.positive | variable,
                ..self
            }
        } else {
            ClauseMask {
                negative: self.negative | variable,
                ..self
            }
        }
    }

    // The set with one more literal, given as its byte.
    pub fn with_literal(self, literal: u8) -> ClauseMask
        ensures { result ≡ with_literal self literal }
    {
        self.with_value(Literal::from(literal))
    }

    // The variables of the literals.
    pub fn variables(self) -> u128
        ensures { (j : ℕ) → bit result j ≡ (inside self j true || inside self j false) }
    {
        self.positive | self.negative
    }

    // Whether the set has a literal of the variable. Variables count modulo 128.
    pub fn mentions(self, variable: u8) -> bool
        ensures { result ≡ (inside self (variable % 128) true || inside self (variable % 128) false) }
    {
        has_variable(self.positive, variable) || has_variable(self.negative, variable)
    }

    // Whether the set has the literal, given as its byte.
    pub fn has_literal(self, literal: u8) -> bool
        ensures { result ≡ inside self (literal / 2) (literal % 2 == 0) }
    {
        let Literal { variable, value } = Literal::from(literal);
        if value {
            has_variable(self.positive, variable)
        } else {
            has_variable(self.negative, variable)
        }
    }

    // Whether some literal is in both sets.
    pub fn meets(self, other: ClauseMask) -> bool
        ensures { MatchBool result (Meets self other) (Apart self other) }
    {
        (self.positive & other.positive) | (self.negative & other.negative) != 0
    }

    // How the clause stands under the assignment.
    pub fn standing(self, assigned: ClauseMask) -> Standing
        ensures { Stands self assigned result }
    {
        if self.meets(assigned) {
            return Standing::True;
        }
        let known = assigned.variables();
        let positive = without(self.positive, known);
        let negative = without(self.negative, known);
        let open = positive | negative;
        if open == 0 {
            return Standing::False;
        }
        let variable = open.trailing_zeros() as u8;
        if open != set_of(variable) {
            return Standing::Open;
        }
        if negative == 0 {
            return Standing::Forces(Literal {
                variable,
                value: true,
            });
        }
        if positive == 0 {
            return Standing::Forces(Literal {
                variable,
                value: false,
            });
        }
        Standing::Open
    }

    // What follows of two clauses that have a variable with opposite signs: their other literals. Variables count modulo 128.
    pub fn resolved(self, other: ClauseMask, variable: u8) -> ClauseMask
        ensures { (j : ℕ) (b : Bool) → inside result j b ≡ ((inside self j b || inside other j b) && not (j == variable % 128)) }
    {
        let pivot = set_of(variable);
        ClauseMask {
            positive: without(self.positive | other.positive, pivot),
            negative: without(self.negative | other.negative, pivot),
        }
    }
}
