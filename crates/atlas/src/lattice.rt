// The corners that neighbouring grounds share: a lattice, each corner of which is moved a little out of its place.
use plane::Corner;

// The middle of two corners of the lattice, which is a whole corner too, since the lattice has even numbers only.
pub(crate) fn middle(one: Corner, other: Corner) -> Corner {
    Corner {
        x: one.x.wrapping_add(other.x) / 2,
        y: one.y.wrapping_add(other.y) / 2,
    }
}

// A quarter of the way from the one to the other.
pub(crate) fn quarter(one: Corner, other: Corner) -> Corner {
    Corner {
        x: one.x.wrapping_mul(3).wrapping_add(other.x) / 4,
        y: one.y.wrapping_mul(3).wrapping_add(other.y) / 4,
    }
}

// How far apart the corners stand, and how far one may be moved to the east and to the north.
const SPACING: u64 = 1100;

const PLAY: u64 = 301;

const ORIGIN: u64 = 2000;

const SEED: u64 = 1;

// An even number below 2 · PLAY that depends on all of its arguments.
fn play(column: u64, row: u64, axis: u64) -> u64 {
    let mut h = SEED.wrapping_mul(4).wrapping_add(axis);
    h = (h ^ (h >> 29))
        .wrapping_mul(6364136223846793005)
        .wrapping_add(column);
    h = (h ^ (h >> 29))
        .wrapping_mul(6364136223846793005)
        .wrapping_add(row);
    h = (h ^ (h >> 29)).wrapping_mul(6364136223846793005);
    h = (h ^ (h >> 31)).wrapping_mul(1442695040888963407);
    ((h >> 33) % PLAY).wrapping_mul(2)
}

pub(crate) fn corner(column: u64, row: u64) -> Corner {
    Corner {
        x: ORIGIN
            .wrapping_add(column.wrapping_mul(SPACING))
            .wrapping_add(play(column, row, 0)),
        y: ORIGIN
            .wrapping_add(row.wrapping_mul(SPACING))
            .wrapping_add(play(column, row, 1)),
    }
}
