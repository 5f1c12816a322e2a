// The cases that the tables change, descend over or judge.
// Two relays and no input. Start clauses at 18 and 20, step clauses at 22, 25, 28 and 31, the safety clause at 34.
pub const TWO: [u8; 36] = [
    2, 0, 0, 0, 2, 0, 4, 0, 1, 0, 18, 0, 22, 0, 34, 0, 36, 0, //
    1, 1, 1, 3, //
    2, 2, 0x41, 2, 3, 0x40, 2, 2, 0x43, 2, 3, 0x42, //
    1, 1,
];

// Three relays and two inputs, and one clause in each list, of more than one literal: the start clause at 18 (relays
// 0, 1, 2), the step clause at 22 (relay 0 before, relays 0 and 1 after, inputs 0 and 1), the safety clause at 28.
pub const THREE: [u8; 32] = [
    3, 0, 2, 0, 1, 0, 1, 0, 1, 0, 18, 0, 22, 0, 28, 0, 32, 0, //
    3, 0, 2, 5, //
    5, 0, 0x41, 0x43, 0x80, 0x83, //
    3, 1, 3, 4,
];

// The relays of TWO, but each becomes as the other was, and no safety clause. Start clauses at 18 and 20, step clauses at 22,
// 25, 28 and 31; the safety section begins at 34, which is the end.
pub const SWAP: [u8; 34] = [
    2, 0, 0, 0, 2, 0, 4, 0, 0, 0, 18, 0, 22, 0, 34, 0, 34, 0, //
    1, 1, 1, 3, //
    2, 2, 0x41, 2, 3, 0x40, 2, 0, 0x43, 2, 1, 0x42,
];

// TWO without the two clauses that make relay 1 keep its value. Step clauses at 22 and 25, the safety clause at 28.
pub const OPEN: [u8; 30] = [
    2, 0, 0, 0, 2, 0, 2, 0, 1, 0, 18, 0, 22, 0, 28, 0, 30, 0, //
    1, 1, 1, 3, //
    2, 2, 0x41, 2, 3, 0x40, //
    1, 1,
];

// One relay that every step leaves open. No start clause; relay 0 is never on.
pub const ANY_START: &[u8] = &[
    1, 0, 0, 0, 0, 0, 0, 0, 1, 0, 18, 0, 18, 0, 18, 0, 20, 0, 1, 1,
];

// The same, and off at the start.
pub const OFF_START: &[u8] = &[
    1, 0, 0, 0, 1, 0, 0, 0, 1, 0, 18, 0, 20, 0, 20, 0, 22, 0, //
    1, 1, //
    1, 1,
];

// 32 relays: relay 31 keeps its value, relay 0 follows it, and steps leave the others open. Relay 31 is off at the start, and
// relay 0 too; relay 0 is never on.
pub const WIDE: &[u8] = &[
    32, 0, 0, 0, 2, 0, 4, 0, 1, 0, 18, 0, 22, 0, 34, 0, 36, 0, //
    1, 1, 1, 63, //
    2, 62, 0x41, 2, 63, 0x40, 2, 62, 0x7f, 2, 63, 0x7e, //
    1, 1,
];

// No clause at all, over as many relays as there may be.
pub const MOST_RELAYS: &[u8] = &[32, 0, 0, 0, 0, 0, 0, 0, 0, 0, 18, 0, 18, 0, 18, 0, 18, 0];

// The same over one relay too many.
pub const TOO_MANY_RELAYS: &[u8] = &[33, 0, 0, 0, 0, 0, 0, 0, 0, 0, 18, 0, 18, 0, 18, 0, 18, 0];
