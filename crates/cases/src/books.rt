//! Books for the tests, as the bytes of their week files; each record is said in the line above it.

/// Shortest paths from a source.
pub const PATHS: [u8; 205] = [
    // kind 1 source(V), kind 2 edge(V, C, U), kind 3 dist(V, D)
    1, 1, 1, 1, 2, 3, 1, 3, 2,
    // rule 1: source(V) writes dist(V, 0); band 1, rank 1
    2, 3, 0, 1, 1, 0, 0, 0, 0, 0, 0, 0, 0, 0, 0, 0, 0, 0, 0, 5, 3, 0, 1, 0, 0, 0, 0, 0, 0, 0, 0, 0,
    0, 0, 0, 0, 0, 0, 0, 0, 0, 0, 0, 0, 0, 0, 0, 0, 0, 0, 0, 0, 0, 0, 7, 1, 0, 1, 0, 0, 0,
    // rule 2: dist(V, D) kept, dist(V, D2) taken where D is at most D2; band 1, rank 1
    2, 3, 0, 3, 1, 0, 0, 0, 0, 1, 1, 0, 0, 0, 0, 0, 0, 0, 0, 3, 1, 3, 1, 0, 0, 0, 0, 1, 4, 0, 0, 0,
    0, 0, 0, 0, 0, 4, 3, 1, 1, 0, 0, 0, 1, 4, 0, 0, 0, 7, 1, 0, 1, 0, 0, 0,
    // rule 3: dist(V, D), edge(V, C, U) write dist(U, D + C); band 2, rank D
    2, 3, 0, 3, 1, 0, 0, 0, 0, 1, 1, 0, 0, 0, 0, 0, 0, 0, 0, 3, 0, 2, 1, 0, 0, 0, 0, 1, 2, 0, 0, 0,
    1, 3, 0, 0, 0, 5, 3, 0, 1, 3, 0, 0, 0, 0, 0, 0, 0, 0, 1, 1, 1, 0, 0, 0, 1, 2, 0, 0, 0, 0, 0, 0,
    0, 0, 0, 0, 0, 0, 0, 0, 7, 2, 1, 1, 0, 0, 0,
];

/// One fact is taken and two are written.
pub const SPLIT: [u8; 102] = [
    // kind 1 whole(A), kind 2 half(A)
    1, 1, 1, 1, 2, 1,
    // rule 1: whole(A) is taken, half(A) written twice; band 0, rank A
    2, 3, 1, 1, 1, 0, 0, 0, 0, 0, 0, 0, 0, 0, 0, 0, 0, 0, 0, 5, 2, 0, 1, 0, 0, 0, 0, 0, 0, 0, 0, 0,
    0, 0, 0, 0, 0, 0, 0, 0, 0, 0, 0, 0, 0, 0, 0, 0, 0, 0, 0, 0, 0, 0, 5, 2, 0, 1, 0, 0, 0, 0, 0, 0,
    0, 0, 0, 0, 0, 0, 0, 0, 0, 0, 0, 0, 0, 0, 0, 0, 0, 0, 0, 0, 0, 0, 0, 0, 0, 7, 0, 1, 0, 0, 0, 0,
];

/// A sum in a body.
pub const GROW: [u8; 67] = [
    // kind 1 number(A), kind 2 more(A)
    1, 1, 1, 1, 2, 1,
    // rule 1: number(A) is taken, more(A + 1) written; band 0, rank 0
    2, 3, 1, 1, 1, 0, 0, 0, 0, 0, 0, 0, 0, 0, 0, 0, 0, 0, 0, 5, 2, 1, 1, 0, 0, 0, 0, 0, 1, 0, 0, 0,
    0, 0, 0, 0, 0, 0, 0, 0, 0, 0, 0, 0, 0, 0, 0, 0, 0, 0, 0, 0, 0, 0, 7, 0, 0, 0, 0, 0, 0,
];

/// A constant in a body that is no serial.
pub const CONSTANT: [u8; 67] = [
    // kind 1 ask(), kind 2 answer(A)
    1, 1, 0, 1, 2, 1,
    // rule 1: ask() is taken, the constant 1,000,000 written; band 0, rank 0
    2, 3, 1, 1, 0, 0, 0, 0, 0, 0, 0, 0, 0, 0, 0, 0, 0, 0, 0, 5, 2, 0, 0, 64, 66, 15, 0, 0, 0, 0, 0,
    0, 0, 0, 0, 0, 0, 0, 0, 0, 0, 0, 0, 0, 0, 0, 0, 0, 0, 0, 0, 0, 0, 0, 7, 0, 0, 0, 0, 0, 0,
];

/// Every ordered pair of items, once.
pub const PAIRS: [u8; 47] = [
    // kind 1 item(A)
    1, 1, 1,
    // rule 1: item(A), item(B), both kept, nothing written; band 0, rank 0
    2, 3, 0, 1, 1, 0, 0, 0, 0, 0, 0, 0, 0, 0, 0, 0, 0, 0, 0, 3, 0, 1, 1, 1, 0, 0, 0, 0, 0, 0, 0, 0,
    0, 0, 0, 0, 0, 7, 0, 0, 0, 0, 0, 0,
];

/// Ticks are taken before a halt fails.
pub const HALT: [u8; 59] = [
    // kind 1 tick(A), kind 2 halt()
    1, 1, 1, 1, 2, 0,
    // rule 1: tick(A) is taken, nothing written; band 0, rank 0
    2, 3, 1, 1, 1, 0, 0, 0, 0, 0, 0, 0, 0, 0, 0, 0, 0, 0, 0, 7, 0, 0, 0, 0, 0, 0,
    // rule 2: halt() is kept, fail; band 0, rank 1
    2, 3, 0, 2, 0, 0, 0, 0, 0, 0, 0, 0, 0, 0, 0, 0, 0, 0, 0, 6, 7, 0, 0, 1, 0, 0, 0,
];
