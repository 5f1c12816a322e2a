// One entry of the table: a variable, its value, and what forced it.
ghost use Rattle.std.specs.Prelude.{◌≡◌, ◌<◌};

use masks::{ClauseMask, Literal};

// An assumed literal, a free choice, or a clause of which every other literal is false.
#[derive(Clone, Copy, PartialEq, Eq, Debug)]
pub enum Forcing {
    Assumed,
    Chosen,
    Forced(ClauseMask),
}

// It stays flat: that the three are its fields is a form that the project fixes (docs/DECISIONS.md).
#[derive(Clone, Copy, PartialEq, Eq, Debug)]
pub struct Decision {
    pub variable: u8,
    pub value: bool,
    pub forcing: Forcing,
    ghost small: { variable < 128 },
}

impl Decision {
    // The literal that it makes true.
    pub fn literal(self) -> Literal
        ensures { result ≡ record { variable = self.variable; value = self.value } }
    {
        Literal {
            variable: self.variable,
            value: self.value,
        }
    }
}
