// Numbers of the header and bytes of the clauses, each changed alone.
use crate::reading::{put, read_says};
use samples::{ACCEPTED, Said, THREE, TWO};

// The byte of the number, its new value, and what is then said.
const HEADER_ROWS: [(usize, u16, Said); 31] = [
    // relays: 1 to 32
    (0, 0, Err((2, 12, 0))),
    (0, 33, Err((2, 12, 0))),
    (0, 258, Err((2, 12, 0))),
    (0, 65535, Err((2, 12, 0))),
    (0, 32, ACCEPTED),
    // inputs: 0 to 64
    (2, 65, Err((2, 13, 2))),
    (2, 256, Err((2, 13, 2))),
    (2, 64, ACCEPTED),
    // start clauses: at most 256; with 256 the step clauses are read as start clauses, and the literal at 24 is foreign
    (4, 257, Err((2, 14, 4))),
    (4, 256, Err((1, 18, 24))),
    // step clauses: at most 1,024; with 1,024 the sixth would begin at the end
    (6, 1025, Err((2, 14, 6))),
    (6, 1024, Err((1, 17, 36))),
    // safety clauses: at most 256; with 256 the second would begin at the end
    (8, 257, Err((2, 14, 8))),
    (8, 256, Err((1, 17, 36))),
    // total: at most 32,768, and how many bytes there are
    (16, 32769, Err((2, 15, 16))),
    (16, 32768, Err((2, 15, 16))),
    (16, 35, Err((2, 15, 16))),
    (16, 37, Err((2, 15, 16))),
    (16, 0, Err((2, 15, 16))),
    // where the sections begin, off by one either way
    (10, 17, Err((2, 16, 10))),
    (10, 19, Err((2, 16, 10))),
    (12, 21, Err((2, 16, 12))),
    (12, 23, Err((2, 16, 12))),
    (14, 33, Err((2, 16, 14))),
    (14, 35, Err((2, 16, 14))),
    // one clause less in a list: the next section does not begin where it should, or bytes are left over
    (4, 1, Err((2, 16, 12))),
    (6, 3, Err((2, 16, 14))),
    (8, 0, Err((2, 20, 34))),
    // one clause more in a list: it takes the first of the next list, and that list begins later than stated
    (4, 3, Err((1, 18, 24))),
    (6, 5, Err((2, 16, 14))),
    (8, 2, Err((1, 17, 36))),
];

// The index of the byte, its new value, and what is then said.
const CLAUSE_ROWS: [(usize, u8, Said); 33] = [
    // start: a relay past the last, a relay after a step, an input
    (20, 0x06, Err((1, 18, 20))),
    (20, 0x42, Err((1, 18, 20))),
    (21, 0x80, Err((1, 18, 21))),
    (19, 0xff, Err((1, 18, 19))),
    // start: a variable again, also negated, and a lower one
    (20, 0x00, Err((1, 19, 20))),
    (20, 0x01, Err((1, 19, 20))),
    (21, 0x03, Err((1, 19, 21))),
    (21, 0x00, Err((1, 19, 21))),
    // step: past the last relay before and after, past the last input
    (23, 0x06, Err((1, 18, 23))),
    (24, 0x46, Err((1, 18, 24))),
    (25, 0x7e, Err((1, 18, 25))),
    (27, 0x84, Err((1, 18, 27))),
    // step: a variable again, and a lower one
    (24, 0x01, Err((1, 19, 24))),
    (25, 0x40, Err((1, 19, 25))),
    (27, 0x80, Err((1, 19, 27))),
    (27, 0x43, Err((1, 19, 27))),
    (26, 0x02, Err((1, 19, 26))),
    // safety: as start
    (30, 0x06, Err((1, 18, 30))),
    (29, 0x40, Err((1, 18, 29))),
    (31, 0x81, Err((1, 18, 31))),
    (30, 0x00, Err((1, 19, 30))),
    (31, 0x02, Err((1, 19, 31))),
    (31, 0x01, Err((1, 19, 31))),
    // the last variable of each kind is one of the list
    (21, 0x04, ACCEPTED),
    (25, 0x45, ACCEPTED),
    (27, 0x82, ACCEPTED),
    // lengths: past the end, up to the end, and short by one
    (18, 14, Err((1, 17, 18))),
    (18, 13, Err((1, 19, 22))),
    (18, 2, Err((2, 16, 12))),
    (22, 255, Err((1, 17, 22))),
    (22, 4, Err((2, 16, 14))),
    (28, 4, Err((1, 17, 28))),
    (28, 2, Err((2, 20, 31))),
];

#[test]
fn header_numbers(rt: HostRuntime) {
    let heap = rt.alloc();
    let wrong = HEADER_ROWS.iter().position(|(at, value, expected)| {
        let mut bytes = TWO;
        put(&mut bytes, *at, &value.to_le_bytes());
        read_says(heap, &bytes) != *expected
    });
    assert_eq!(rt; wrong, None);
}

#[test]
fn clause_bytes(rt: HostRuntime) {
    let heap = rt.alloc();
    let wrong = CLAUSE_ROWS.iter().position(|(at, value, expected)| {
        let mut bytes = THREE;
        put(&mut bytes, *at, &[*value]);
        read_says(heap, &bytes) != *expected
    });
    assert_eq!(rt; wrong, None);
}
