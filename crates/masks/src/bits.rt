// Sets of variables as numbers of 128 bits.
ghost use Rattle.std.specs.Prelude.{◌≡◌, ℕ, ◌/◌, ◌%◌, ◌^◌, not, ◌&&◌};
ghost use Rattle.system.specs.Literals.{bit};
ghost use Rattle.solver.specs.declared.answer.Answer.TheVariants.{Yes};

use solver::Answer;

// The set of just the variable. Variables count modulo 128.
pub fn set_of(variable: u8) -> u128
    ensures { result ≡ 2 ^ (variable % 128) }
{
    1 << (variable % 128)
}

// Whether the set has the variable. Variables count modulo 128.
pub fn has_variable(set: u128, variable: u8) -> bool
    ensures { result ≡ bit set (variable % 128) }
{
    (set >> (variable % 128)) % 2 == 1
}

// The bits of a that are not bits of b.
pub fn without(a: u128, b: u128) -> u128
    ensures { (j : ℕ) → bit result j ≡ (bit a j && not (bit b j)) }
{
    a & !b
}

// The yes whose model has these variables true. It stays a function: a number is no answer, and a From would hide that this
// one is a yes.
pub fn yes_of(trues: u128) -> Answer
    ensures { result ≡ Yes (trues % 2 ^ 64) (trues / 2 ^ 64) }
{
    Answer::Yes(
        (trues % 0x1_0000_0000_0000_0000) as u64,
        (trues / 0x1_0000_0000_0000_0000) as u64,
    )
}
