// Why a row of numbers is no ground. Corners are numbered from 1, and an edge has the number of the corner that it starts from.
ghost use Rattle.std.specs.Prelude.{Some};
ghost use Rattle.ground.specs.Reasons.{reason_words};

use std::fmt;

#[derive(Clone, Copy, PartialEq, Eq, Debug)]
pub enum NoGround {
    // A number is left over: a corner is two numbers.
    Odd,
    // Fewer than 3 corners.
    TooFew,
    // More than 256 corners.
    TooMany,
    // The first corner with a number of 2^20 or more.
    OutOfRange { corner: u64 },
    // The first two edges that meet: neighbours in more than their corner, others at all.
    EdgesMeet { first: u64, second: u64 },
    // Gone round to the right, or with no area.
    Clockwise,
}

impl fmt::Display for NoGround {
    ghost output = { λ why. Some (reason_words why) };

    fn fmt<W: fmt::Write>(&self, f: &mut fmt::Formatter<W>) -> fmt::Result {
        match self {
            NoGround::Odd => f.write_str("a number is left over"),
            NoGround::TooFew => f.write_str("fewer than 3 corners"),
            NoGround::TooMany => f.write_str("more than 256 corners"),
            NoGround::OutOfRange { corner } => write!(
                f,
                "corner {corner} is out of range (numbers below 1048576)"
            ),
            NoGround::EdgesMeet { first, second } => write!(f, "edges {first} and {second} meet"),
            NoGround::Clockwise => f.write_str("gone round to the right, or without area"),
        }
    }
}

impl std::error::Error for NoGround {}
