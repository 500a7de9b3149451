// What is answered.
use terms::{Point, Way};

// Another ground, and how a ground lies to it.
#[derive(Clone, Copy, PartialEq, Eq, Debug)]
pub struct Neighbour {
    pub other: u64,
    pub way: Way,
}

// An answer to a command, or to a line that is none.
#[derive(PartialEq, Eq, Debug, Drop)]
pub enum Answer {
    Done,
    Refused { reason: u64 },
    // A point, and the grounds that it is in.
    Point { point: Point, grounds: Vec<u64> },
    Lie { first: u64, second: u64, way: Way },
    // All that lie on ground `number`.
    AllLie { number: u64, rows: Vec<Neighbour> },
    Area { number: u64, twice: u64 },
    NotUnderstood { line: Vec<u8> },
}
