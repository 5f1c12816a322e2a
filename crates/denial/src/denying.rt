// The literals that deny a clause.
ghost use Rattle.std.specs.Prelude.{◌≡◌, ◌<◌, ◌≤◌, not, take};
ghost use Rattle.system.specs.Literals.{Valuation, variable_of, literal, clause};
ghost use Rattle.system.specs.Systems.{OverRelays};
ghost use Rattle.solver.specs.Answers.{literals};
ghost use Rattle.denial.specs.Moments.{at};

use crate::moment::Moment;
use system::{literal_of, variable};

// The literal that is true at that moment exactly where the literal of the byte is false there.
fn opposite(byte: u8, moment: Moment) -> u8
    ensures { variable_of byte < 32 → (a : Valuation) → literal a result ≡ not (literal (at moment a) byte) }
{
    let plain = byte % 2 == 1;
    match moment {
        Moment::Before => literal_of(variable(byte), plain),
        Moment::After => literal_of(variable(byte) + 32, plain),
    }
}

// Writes the literals that are all true at that moment exactly where the clause is false there, and says how many they are.
// A clause counts as its first 32 literals.
pub fn deny(denied: &[u8], moment: Moment, out: &mut [u8; 32]) -> usize
    ensures denied { OverRelays 32 (take 32 denied.now) → (a : Valuation) → literals a (take result out.new) ≡ not (clause (at moment a) (take 32 denied.now)) }
    ensures bound { result ≤ 32 }
{
    let count = denied.len().min(32);
    for (i, literal) in denied[..count].iter().enumerate() {
        out[i] = opposite(*literal, moment);
    }
    count
}
