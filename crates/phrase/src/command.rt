// What can be said to the map.

use terms::Point;

// A command. The row of a ground has two numbers for each corner.
#[derive(PartialEq, Eq, Debug, Drop)]
pub enum Command {
    Put { number: u64, row: Vec<u64> },
    Drop { number: u64 },
    AtPoint(Point),
    HowLie { first: u64, second: u64 },
    AllThatLie { number: u64 },
    AreaOf { number: u64 },
    Help,
    Quit,
    // An empty line, or one with a comment only.
    Nothing,
}
