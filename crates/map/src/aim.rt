// Points that can be asked for.
ghost use Rattle.std.specs.Prelude.{◌≡◌, true, false, MatchOption};
ghost use Rattle.ground.specs.Boxes.{box_around};
ghost use Rattle.map.specs.Machine.{small_point};
ghost use Rattle.map.specs.Code.{point_of};

use ground::Extent;
use terms::{DENOMINATOR_LIMIT, NUMERATOR_LIMIT, Point};

// A point in range, and the least box of whole numbers around it.
#[derive(Clone, Copy)]
pub(crate) struct Aim {
    pub(crate) point: Point,
    pub(crate) around: Extent,
    ghost small: { small_point (point_of point) ≡ true },
    ghost boxed: { around ≡ box_around point.a point.b point.w },
}

impl Aim {
    // At a point, if that is in range.
    pub(crate) fn at(point: Point) -> Option<Aim>
        ensures { MatchOption result (small_point (point_of point) ≡ false) (λ t. (small_point (point_of point) ≡ true) × (t.point ≡ point)) }
    {
        if point.w >= DENOMINATOR_LIMIT
            || point.a >= NUMERATOR_LIMIT
            || point.b >= NUMERATOR_LIMIT
        {
            return None;
        }
        let around = Extent::around(point)?;
        Some(Aim { point, around })
    }
}
