// The literals of marked relays, and the marks that a state leaves.
ghost use Rattle.std.specs.Prelude.{◌≡◌, ◌+◌, ◌%◌, ◌^◌, ◌<◌, ◌≤◌, cond, length, take, slice_index, EachIndex};
ghost use Rattle.std.specs.Bool.{beq};
ghost use Rattle.system.specs.Literals.{bit};
ghost use Rattle.system.specs.Spelling.{literal_of as literal_spelled, spelled};
ghost use Rattle.sieve.specs.Marks.{marked};

use system::{is_on, literal_of};

// The literal of a relay, over the variables from first on, that is true at the state or false at it.
fn literal_at(state: u32, first: u8, relay: u8, truth: bool) -> u8
    requires relay { relay < 32 }
    requires first { first ≤ 32 }
    ensures { result ≡ literal_spelled (first + relay) (beq (bit state relay) truth) }
{
    literal_of(first + relay, is_on(state, relay) == truth)
}

// Writes the literals of the marked relays over the variables from first on, those true at the state or those false at it,
// and says how many they are.
pub(crate) fn write_literals(
    marks: &[u8],
    state: u32,
    first: u8,
    truth: bool,
    out: &mut [u8; 32],
) -> usize
    requires few { length marks.now ≤ 32 }
    requires first { first ≤ 32 }
    ensures value { take result out.new ≡ spelled first (length marks.now) (marked marks.now) (λ i. beq (bit state i) truth) }
    ensures bound { result ≤ length marks.now }
{
    let mut count = 0;
    for (i, mark) in marks.iter().enumerate() {
        if *mark == 1 {
            // stays a cast, here and below: there are at most 32 relays
            let relay = i as u8;
            out[count] = literal_at(state, first, relay, truth);
            count += 1;
        }
    }
    count
}

// Unmarks the relays that differ in the two states.
pub(crate) fn unmark_differing(marks: &mut [u8], state: u32, other: u32)
    requires { length marks.old ≤ 32 }
    ensures { EachIndex marks.new (λ k. slice_index marks.new k ≡ cond (beq (bit other k) (bit state k)) (slice_index marks.old k) 0) }
{
    for (i, mark) in marks.iter_mut().enumerate() {
        let relay = i as u8;
        if is_on(other, relay) != is_on(state, relay) {
            *mark = 0;
        }
    }
}

// The state before a step in the low half of a model.
pub(crate) fn state_before(low: u64) -> u32
    ensures { result ≡ low % 2 ^ 32 }
{
    // stays a cast: the remainder fits
    (low % 0x1_0000_0000) as u32
}
