// Lists of candidates over two relays.
use crate::reading::put;
use clauses::read_candidates;
use samples::{Refused, said};
use std::alloc::{AllocError, Global};

// How many candidates there are.
type Listed = Result<usize, Refused>;

// The bytes, and what is said of them.
const SMALL_ROWS: [(&[u8], Listed); 9] = [
    (&[], Ok(0)),
    (&[0], Ok(1)),
    (&[1, 1, 1, 3, 2, 0, 2], Ok(3)),
    (&[1, 1, 1, 4, 0, 0, 0], Err((1, 18, 3))),
    (&[1, 1, 1, 0x40, 0, 0, 0], Err((1, 18, 3))),
    (&[2, 2, 0, 0, 0, 0, 0], Err((1, 19, 2))),
    (&[2, 2, 3, 0, 0, 0, 0], Err((1, 19, 2))),
    (&[0, 3, 0, 2], Err((1, 17, 1))),
    (&[1, 1, 1, 3, 2, 0], Err((1, 17, 4))),
];

// How many bytes, all 0 and so each an empty clause but for two of them: where these stand and what they are. 512
// candidates are taken and a 513th is not, and a fault inside any clause comes first.
const LONG_ROWS: [(usize, usize, [u8; 2], Listed); 6] = [
    (512, 0, [0, 0], Ok(512)),
    (513, 511, [1, 2], Ok(512)),
    (513, 0, [0, 0], Err((3, 21, 512))),
    (602, 600, [0, 0], Err((3, 21, 512))),
    (602, 600, [1, 4], Err((1, 18, 601))),
    (514, 513, [1, 0], Err((1, 17, 513))),
];

// What is said of the bytes as a list over two relays.
fn listed(bytes: &[u8]) -> Listed {
    Ok(said(read_candidates(2, bytes))?.len())
}

// So many bytes, all 0 but for these.
fn long_list(heap: Global, len: usize, at: usize, values: &[u8]) -> Result<Vec<u8>, AllocError> {
    let mut bytes = vec![in heap; 0; len]?;
    put(bytes.as_mut_slice(), at, values);
    Ok(bytes)
}

#[test]
fn small_lists(rt: HostRuntime) {
    let wrong = SMALL_ROWS
        .iter()
        .position(|(bytes, expected)| listed(bytes) != *expected);
    assert_eq!(rt; wrong, None);
}

#[test]
fn long_lists(rt: HostRuntime) {
    let heap = rt.alloc();
    let wrong = LONG_ROWS.iter().position(|(len, at, values, expected)| {
        !long_list(heap, *len, *at, values).is_ok_and(|bytes| listed(bytes.as_slice()) == *expected)
    });
    assert_eq!(rt; wrong, None);
}
