// Literals, and the bytes that stand for them.
ghost use Rattle.std.specs.Prelude.{◌≡◌, ◌/◌, ◌%◌, ◌==◌};

// A literal: it is true where the variable has the value.
#[derive(Clone, Copy, PartialEq, Eq, Debug)]
pub struct Literal {
    pub variable: u8,
    pub value: bool,
}

// The literal of a byte: about variable byte / 2, negated where odd.
impl From<u8> for Literal {
    ghost from_gives = { λ byte l. l ≡ record { variable = byte / 2; value = (byte % 2 == 0) } };

    fn from(byte: u8) -> Literal {
        Literal {
            variable: byte / 2,
            value: byte % 2 == 0,
        }
    }
}
