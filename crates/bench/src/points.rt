// Points to ask, always the same: each depends on its turn.
use atlas::entry;
use terms::Point;

// A number that depends on the turn and on which of several it is.
fn mixed(turn: u32, which: u64) -> u64 {
    let mut h = u64::from(turn).wrapping_mul(4).wrapping_add(which);
    h = (h ^ (h >> 31))
        .wrapping_mul(6364136223846793005)
        .wrapping_add(1442695040888963407);
    h = (h ^ (h >> 29))
        .wrapping_mul(6364136223846793005)
        .wrapping_add(1442695040888963407);
    h >> 33
}

// Up to a thousand.
fn denominator(turn: u32) -> u64 {
    (mixed(turn, 0) % 1000).wrapping_add(1)
}

// Anywhere on the map.
pub(crate) fn spread(turn: u32) -> Point {
    let w = denominator(turn);
    Point {
        a: (mixed(turn, 1) % 36000).wrapping_mul(w),
        b: (mixed(turn, 2) % 34000)
            .wrapping_mul(w)
            .wrapping_add(mixed(turn, 3) % w.max(1)),
        w,
    }
}

// East of all grounds.
pub(crate) fn outside(turn: u32) -> Point {
    let w = denominator(turn);
    Point {
        a: (mixed(turn, 1) % 36000).wrapping_add(60000).wrapping_mul(w),
        b: (mixed(turn, 2) % 34000).wrapping_mul(w),
        w,
    }
}

// A third of the way along an edge of a ground.
pub(crate) fn shared(turn: u32) -> Point {
    let [_, _, bx, by, cx, cy, _, _] = entry((mixed(turn, 1) % 840) as u32).map_or(
        [0; 8],
        |ground| ground.row,
    );
    Point {
        a: bx.wrapping_mul(2).wrapping_add(cx),
        b: by.wrapping_mul(2).wrapping_add(cy),
        w: 3,
    }
}
