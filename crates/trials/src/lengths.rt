// Cases cut short, drawn out, and as long as one may be.
use crate::reading::read_says;
use samples::{ACCEPTED, Said, THREE};
use std::alloc::{AllocError, Global};
use std::test::Fail;

// From which length on a case that is cut there, with its total set to its length, is refused as said: below 18 bytes
// for want of a header, and then for the clause that the cut leaves unfinished or missing.
fn cut_says(len: usize) -> Said {
    if len < 18 {
        Err((2, 11, len))
    } else if len < 22 {
        Err((1, 17, 18))
    } else if len < 28 {
        Err((1, 17, 22))
    } else if len < 32 {
        Err((1, 17, 28))
    } else {
        ACCEPTED
    }
}

#[test]
fn cut_at_every_byte(rt: HostRuntime) {
    let heap = rt.alloc();
    let wrong = (0..33u8).find(|total| {
        let mut bytes = THREE;
        bytes[16] = *total;
        let len = usize::from(*total);
        read_says(heap, &bytes[..len]) != cut_says(len)
    });
    assert_eq!(rt; wrong, None);
}

// The smallest case, of no clause and one relay, with and without a byte after it.
const SMALLEST: [u8; 19] = [1, 0, 0, 0, 0, 0, 0, 0, 0, 0, 18, 0, 18, 0, 18, 0, 18, 0, 0];

#[test]
fn one_byte_left_over(rt: HostRuntime) {
    let heap = rt.alloc();
    let mut longer = SMALLEST;
    longer[16] = 19;
    let said = (read_says(heap, &SMALLEST[..18]), read_says(heap, &longer));
    assert_eq!(rt; said, (ACCEPTED, Err((2, 20, 18))));
}

// 32 relays, 64 inputs, and 254 step clauses: 253 over all 128 variables, 129 bytes each, and one over as many as are given.
fn long_case(heap: Global, last: u8) -> Result<Vec<u8>, AllocError> {
    let [low, high] = (32656 + u16::from(last)).to_le_bytes();
    let header = [
        32, 0, 64, 0, 0, 0, 254, 0, 0, 0, 18, 0, 18, 0, low, high, low, high,
    ];
    let mut bytes = Vec::from_slice(heap, &header)?;
    for _ in 0..253 {
        push_clause(&mut bytes, 128)?;
    }
    push_clause(&mut bytes, last)?;
    Ok(bytes)
}

// Adds a clause over the first variables, at most 128, all of them negated.
fn push_clause(bytes: &mut Vec<u8>, variables: u8) -> Result<(), AllocError> {
    bytes.push(variables)?;
    for literal in (1..=255).step_by(2).take(usize::from(variables)) {
        bytes.push(literal)?;
    }
    Ok(())
}

// How long such a case is, and what is said of it.
fn long_says(heap: Global, last: u8) -> Result<(usize, Said), AllocError> {
    let bytes = long_case(heap, last)?;
    Ok((bytes.len(), read_says(heap, bytes.as_slice())))
}

#[test]
fn as_long_as_may_be(rt: HostRuntime) -> Result<(), Fail> {
    let heap = rt.alloc();
    let said = (long_says(heap, 112)?, long_says(heap, 113)?);
    assert_eq!(rt; said, ((32768, ACCEPTED), (32769, Err((2, 15, 16)))));
    Ok(())
}
