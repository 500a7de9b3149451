// The area of a ring, with its sign: it is above nothing for a ring gone round to the left.
ghost use Rattle.std.specs.Prelude.{◌≡◌, ◌+◌, ◌-◌, ◌*◌, ◌^◌, ◌<◌, ◌≤◌, true, false, length, MatchOption};
ghost use Rattle.ground.specs.Rows.{shape_of};
ghost use Rattle.ground.specs.Refusals.{goes_left, has_area};
ghost use Rattle.ground.specs.Shapes.{twice_area};
ghost use Rattle.plane.specs.Lists.{every};
ghost use Rattle.ground.specs.Rows.{near_corner};

use crate::range::first_far;
use crate::validity::MOST_CORNERS;
use crate::walks::Edges;
use plane::Edge;

// The products of the edges so far, both ways: twice the area is the difference of these sums over a whole ring.
#[derive(Clone, Copy, Default)]
struct Sums {
    left: u64,
    right: u64,
}

impl Sums {
    // With one more edge.
    fn with(self, e: Edge) -> Sums
        requires { (self.left + e.one.x * e.other.y < 2 ^ 64) × (self.right + e.one.y * e.other.x < 2 ^ 64) }
        ensures { (result.left ≡ self.left + e.one.x * e.other.y) × (result.right ≡ self.right + e.one.y * e.other.x) }
    {
        Sums {
            left: self.left + e.one.x * e.other.y,
            right: self.right + e.one.y * e.other.x,
        }
    }

    // By how much the left sum is above the right one; nothing if it is not.
    fn lead(self) -> Option<u64>
        ensures { MatchOption result (self.left ≤ self.right) (λ n. (self.right < self.left) × (n ≡ self.left - self.right)) }
    {
        if self.right < self.left {
            Some(self.left - self.right)
        } else {
            None
        }
    }
}

// Twice the area of the ring of a row; nothing if a number is left over or out of range, there are more than 256 corners, or the ring is not
// gone round to the left. It fits, since it is at most a sum of 256 products below 2^40.
pub fn twice_area(row: &[u64]) -> Option<u64>
    ensures { MatchOption result (has_area row.now ≡ false) (λ n. (has_area row.now ≡ true) × (n ≡ twice_area (shape_of row.now))) }
{
    if row.len() % 2 != 0 || row.len() > 2 * MOST_CORNERS {
        return None;
    }
    if first_far(row).is_some() {
        return None;
    }
    area_to_the_left(row)
}

// Twice the area of a ring gone round to the left; nothing for one that is gone round to the right or has no area.
// Each product is below 2^40, and there are at most 256 of them.
pub(crate) fn area_to_the_left(row: &[u64]) -> Option<u64>
    requires { (length row.now ≤ 512) × (every near_corner (shape_of row.now) ≡ true) }
    ensures { MatchOption result (goes_left (shape_of row.now) ≡ false) (λ n. (goes_left (shape_of row.now) ≡ true) × (n ≡ twice_area (shape_of row.now))) }
{
    let mut sums = Sums::default();
    for edge in Edges::of(row) {
        sums = sums.with(edge);
    }
    sums.lead()
}
