// Seven relays x0, x1, x, y0, y1, y and z, in this order. After a step x0 and x1 are as they were not, x is on where x0 or x1
// was, y0 and y1 where x was and they were not, y where y0 or y1 was, and z where x and y were. At the start x0 differs from
// x1 and y0 from y1, and x, y and z are on. The safety clause is z.
use crate::works::{ROOM, blank_book};
use counting::Counter;
use histories::Verdict;
use keeping::{Engine, Keeping};
use search::Search;
use std::alloc::Global;
use work::{Judged, judge};

// The bytes of the case.
pub const SEVEN: [u8; 100] = [
    7, 0, 0, 0, 7, 0, 19, 0, 1, 0, 18, 0, 36, 0, 98, 0, 100, 0, //
    // start: x0 or x1, and not both; y0 or y1, and not both; x; y; z
    2, 0, 2, 2, 1, 3, 2, 6, 8, 2, 7, 9, 1, 4, 1, 10, 1, 12, //
    // step of x0, x1
    2, 0, 0x40, 2, 1, 0x41, 2, 2, 0x42, 2, 3, 0x43, //
    // of x
    2, 1, 0x44, 2, 3, 0x44, 3, 0, 2, 0x45, //
    // of y0, y1
    2, 4, 0x47, 2, 7, 0x47, 3, 5, 6, 0x46, //
    2, 4, 0x49, 2, 9, 0x49, 3, 5, 8, 0x48, //
    // of y
    2, 7, 0x4a, 2, 9, 0x4a, 3, 6, 8, 0x4b, //
    // of z
    2, 4, 0x4d, 2, 10, 0x4d, 3, 5, 11, 0x4c, //
    // safety: z
    1, 12,
];

// The verdict and how many places are used, of 128: as many as there are states, with which no turn is refused.
fn judged<E: Engine>(heap: Global) -> Option<(Verdict, usize)> {
    let mut solver = Keeping::<E>::new(heap, ROOM).ok()?;
    let mut book = blank_book(heap, 128).ok()?;
    let Judged { closed, refused } = judge(heap, &SEVEN, &mut solver, book.as_mut_slice()).ok()?;
    let look = closed.look();
    closed.put_away();
    match refused {
        Some(_fault) => None,
        None => Some((look.verdict, look.used)),
    }
}

// Both find the same states, since both try false first.
#[test]
fn counting_holds(rt: HostRuntime) {
    assert_eq!(rt; judged::<Counter>(rt.alloc()), Some((Verdict::Holds, 15)));
}

#[test]
fn propagating_holds(rt: HostRuntime) {
    assert_eq!(rt; judged::<Search>(rt.alloc()), Some((Verdict::Holds, 15)));
}
