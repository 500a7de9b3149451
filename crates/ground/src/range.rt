// The range of corners: grounds have numbers below 2^20.
ghost use Rattle.std.specs.Prelude.{◌≡◌, true, false, MatchOption};
ghost use Rattle.ground.specs.Refusals.{FirstFar};
ghost use Rattle.ground.specs.Rows.{shape_of};
ghost use Rattle.plane.specs.Code.{at};
ghost use Rattle.plane.specs.Lists.{every};
ghost use Rattle.ground.specs.Rows.{near_corner};

use crate::walks::Corners;
use plane::{CORNER_LIMIT, Corner};

// The number of the first corner out of range.
pub(crate) fn first_far(row: &[u64]) -> Option<u64>
    ensures { MatchOption result (every near_corner (shape_of row.now) ≡ true) (λ k. (every near_corner (shape_of row.now) ≡ false) × FirstFar (shape_of row.now) k) }
{
    let before = Corners::of(row).position(|c| !in_range(c))?;
    Some(before as u64 + 1)
}

fn in_range(c: Corner) -> bool
    ensures { result ≡ near_corner (at c) }
{
    c.x < CORNER_LIMIT && c.y < CORNER_LIMIT
}
