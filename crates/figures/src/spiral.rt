// A ring that is written down corner by corner: a corridor of one ell that winds inward. East and north.
pub const SPIRAL: [[u32; 2]; 16] = [
    [0, 0],
    [7, 0],
    [7, 7],
    [0, 7],
    [0, 2],
    [5, 2],
    [5, 5],
    [2, 5],
    [2, 4],
    [4, 4],
    [4, 3],
    [1, 3],
    [1, 6],
    [6, 6],
    [6, 1],
    [0, 1],
];
