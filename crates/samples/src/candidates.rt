// Lists of candidates of one literal.
use std::alloc::Global;
use system::literal_of;

// So many candidates, that a relay is off, for each relay in turn and then again from the first.
pub fn off_candidates(heap: Global, relays: u8, count: usize) -> Option<Vec<u8>> {
    let mut bytes = Vec::new(heap);
    for relay in (0..relays).cycle().take(count) {
        bytes.push(1).ok()?;
        bytes.push(literal_of(relay, false)).ok()?;
    }
    Some(bytes)
}
