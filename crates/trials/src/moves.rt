// Systems without start and safety clauses, in which a step keeps some relays, moves some and leaves the others open.
ghost use Rattle.std.specs.Prelude.{◌<◌};

use std::alloc::{AllocError, Global};
use system::{is_on, literal_of};

// What a step makes of the relays, a bit for each: those that are kept, and of the others those that become as the next relay
// was, the last one as the first. The rest may become on or off.
#[derive(Clone, Copy)]
pub struct Moves {
    pub kept: u32,
    pub moved: u32,
}

// The relay as which a relay becomes, if steps say.
fn source(relays: u8, moves: Moves, relay: u8) -> Option<u8>
    requires { relay < relays }
{
    if is_on(moves.kept, relay) {
        return Some(relay);
    }
    if !is_on(moves.moved, relay) {
        return None;
    }
    let next = relay + 1;
    Some(if next < relays { next } else { 0 })
}

// Adds the two clauses of a relay that becomes as another was.
fn push_move(bytes: &mut Vec<u8>, from: u8, relay: u8) -> Result<(), AllocError> {
    for plain in [true, false] {
        bytes.push(2)?;
        bytes.push(literal_of(from, plain))?;
        bytes.push(literal_of(32 + relay % 32, !plain))?;
    }
    Ok(())
}

// The step clauses.
fn step_clauses(heap: Global, relays: u8, moves: Moves) -> Result<Vec<u8>, AllocError> {
    let mut bytes = Vec::new(heap);
    for relay in 0..relays {
        if let Some(from) = source(relays, moves, relay) {
            push_move(&mut bytes, from, relay)?;
        }
    }
    Ok(bytes)
}

// The bytes of the case of so many relays, at most 32.
pub fn moving_case(heap: Global, relays: u8, moves: Moves) -> Option<Vec<u8>> {
    let clauses = step_clauses(heap, relays, moves).ok()?;
    let size = u8::try_from(clauses.len()).ok()?;
    let [low, high] = (18 + u16::from(size)).to_le_bytes();
    let steps = size / 3;
    let header = [
        relays, 0, 0, 0, 0, 0, steps, 0, 0, 0, 18, 0, 18, 0, low, high, low, high,
    ];
    let mut bytes = Vec::from_slice(heap, &header).ok()?;
    bytes.extend_from_slice(clauses.as_slice()).ok()?;
    Some(bytes)
}

// So many marks, for each relay in turn and then again from the first: 1 where the relay's bit is.
pub fn marks_of(heap: Global, relays: u8, bits: u32, count: usize) -> Option<Vec<u8>> {
    let mut marks = Vec::new(heap);
    for relay in (0..relays).cycle().take(count) {
        marks.push(u8::from(is_on(bits, relay))).ok()?;
    }
    Some(marks)
}
