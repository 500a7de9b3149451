// The grounds of the register, by their place in it.
ghost use Rattle.std.specs.Prelude.{◌≡◌, ◌+◌, ◌<◌, ◌≤◌, MatchOption};

use crate::lattice::{corner, middle, quarter};
use plane::Corner;

// How many grounds there are.
pub const COUNT: u32 = 940;

const COLUMNS: u64 = 30;

const ROWS: u64 = 28;

// Of the cells every 21st is cut in two.
const CUT: u64 = 21;

// The places of the cells, of the northern halves and of the islets end here; behind them are the disputed grounds.
const END_OF_CELLS: u64 = 840;

const END_OF_HALVES: u64 = 880;

const END_OF_ISLETS: u64 = 920;

// A ground of four corners under its number.
#[derive(Clone, Copy, PartialEq, Eq, Debug)]
pub struct Ground {
    pub number: u64,
    // Two numbers each.
    pub row: [u64; 8],
}

// The row of four corners.
fn row_of(corners: [Corner; 4]) -> [u64; 8] {
    let [a, b, c, d] = corners;
    [a.x, a.y, b.x, b.y, c.x, c.y, d.x, d.y]
}

// The four corners of a cell, from the south-west on, to the left.
fn cell_corners(column: u64, row: u64) -> [Corner; 4] {
    let east = column.wrapping_add(1);
    let north = row.wrapping_add(1);
    [
        corner(column, row),
        corner(east, row),
        corner(east, north),
        corner(column, north),
    ]
}

// A cell, or the southern half of one that is cut between the middles of its western and eastern edge.
fn cell(place: u64) -> [Corner; 4] {
    let [a, b, c, d] = cell_corners(place % COLUMNS, place / COLUMNS);
    if place % CUT == 10 {
        [a, b, middle(b, c), middle(a, d)]
    } else {
        [a, b, c, d]
    }
}

fn northern_half(k: u64) -> [Corner; 4] {
    let place = k.wrapping_mul(CUT).wrapping_add(10);
    let [a, b, c, d] = cell_corners(place % COLUMNS, place / COLUMNS);
    [middle(a, d), middle(b, c), c, d]
}

// Within a cell.
fn islet(k: u64) -> [Corner; 4] {
    let [a, b, c, d] = cell_corners(k.wrapping_mul(7) % COLUMNS, k.wrapping_mul(11) % ROWS);
    [quarter(a, c), quarter(b, d), quarter(c, a), quarter(d, b)]
}

// Over the four cells that meet in a corner.
fn disputed(k: u64) -> [Corner; 4] {
    let column = (k.wrapping_mul(5) % 29).wrapping_add(1);
    let row = (k.wrapping_mul(3) % 27).wrapping_add(1);
    let heart = corner(column, row);
    let south = corner(column, row.wrapping_sub(1));
    let east = corner(column.wrapping_add(1), row);
    let north = corner(column, row.wrapping_add(1));
    let west = corner(column.wrapping_sub(1), row);
    [south, east, north, west].map(|end| middle(heart, end))
}

fn corners(place: u64) -> [Corner; 4] {
    match place {
        0..END_OF_CELLS => cell(place),
        END_OF_CELLS..END_OF_HALVES => northern_half(place - END_OF_CELLS),
        END_OF_HALVES..END_OF_ISLETS => islet(place - END_OF_HALVES),
        _ => disputed(place - END_OF_ISLETS),
    }
}

// The ground at a place from 0 on; their numbers rise from 1.
pub fn entry(place: u32) -> Option<Ground>
    ensures { MatchOption result (940 ≤ place) (λ g. (place < 940) × (g.number ≡ place + 1)) }
{
    if place >= COUNT {
        return None;
    }
    let number = u64::from(place) + 1;
    let row = row_of(corners(u64::from(place)));
    Some(Ground { number, row })
}
