// States by their relays, and clauses over these.
ghost use Rattle.std.specs.Prelude.{◌≡◌, ◌%◌};
ghost use Rattle.system.specs.Literals.{bit, literal, clause};
ghost use Rattle.system.specs.Spelling.{literal_of as literal_spelled};

// Whether the relay is on in the state. None from 32 on is.
pub fn is_on(state: u32, relay: u8) -> bool
    ensures { result ≡ bit state relay }
{
    relay < 32 && (state >> relay) % 2 == 1
}

// The literal of the variable, plain or negated. Variables count modulo 128.
pub fn literal_of(variable: u8, plain: bool) -> u8
    ensures { result ≡ literal_spelled (variable % 128) plain }
{
    2 * (variable % 128) + u8::from(!plain)
}

// Whether the literal of the byte is true in the state.
fn is_literal_true(byte: u8, state: u32) -> bool
    ensures { result ≡ literal (bit state) byte }
{
    is_on(state, crate::variable(byte)) == (byte % 2 == 0)
}

// Whether a literal of the clause is true in the state.
pub fn is_true(literals: &[u8], state: u32) -> bool
    ensures { result ≡ clause (bit state) literals.now }
{
    literals.iter().any(|&byte| is_literal_true(byte, state))
}
