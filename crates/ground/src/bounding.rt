// Bounding boxes: a point outside a ground's box is not of that ground, and four comparisons tell.
ghost use Rattle.std.specs.Prelude.{◌≡◌, length, Some, None, nat_le};
ghost use Rattle.ground.specs.Boxes.{box_of, has_box, box_around, holds, boxes_apart, box_together, grown_to};
ghost use Rattle.ground.specs.Rows.{shape_of};
ghost use Rattle.plane.specs.Code.{at};
ghost use Rattle.plane.specs.Lists.{pick};

use crate::walks::Corners;
use plane::Corner;
use terms::Point;

// From west to east and from south to north, both ends within.
#[derive(Clone, Copy, PartialEq, Eq, Debug)]
pub struct Extent {
    pub west: u64,
    pub south: u64,
    pub east: u64,
    pub north: u64,
}

impl Extent {
    // The box of a row of corners; an empty or odd row has none.
    pub fn of(row: &[u64]) -> Option<Extent>
        ensures { result ≡ pick (has_box row.now) (Some (box_of (shape_of row.now))) None }
    {
        if row.len() % 2 != 0 {
            return None;
        }
        Extent::of_corners(row)
    }

    // The box of the whole corners of a row, if there are any.
    fn of_corners(row: &[u64]) -> Option<Extent>
        ensures { result ≡ pick (nat_le 2 (length row.now)) (Some (box_of (shape_of row.now))) None }
    {
        let mut corners = Corners::of(row);
        let Corner { x, y } = corners.next()?;
        let mut extent = Extent {
            west: x,
            south: y,
            east: x,
            north: y,
        };
        for corner in corners {
            extent = extent.grown_to(corner);
        }
        Some(extent)
    }

    // The least box of whole numbers around a point a / w, b / w; nothing if w is 0.
    pub fn around(point: Point) -> Option<Extent>
        ensures { result ≡ pick (nat_le 1 point.w) (Some (box_around point.a point.b point.w)) None }
    {
        let Point { a, b, w } = point;
        if w == 0 {
            return None;
        }
        Some(Extent {
            west: a / w,
            south: b / w,
            east: a.div_ceil(w),
            north: b.div_ceil(w),
        })
    }

    // Whether the inner box lies in this one.
    pub fn holds(self, inner: Extent) -> bool
        ensures { result ≡ holds self inner }
    {
        self.west <= inner.west
            && inner.east <= self.east
            && self.south <= inner.south
            && inner.north <= self.north
    }

    // Whether the two have no point in common.
    pub fn is_apart(self, other: Extent) -> bool
        ensures { result ≡ boxes_apart self other }
    {
        self.east < other.west
            || other.east < self.west
            || self.north < other.south
            || other.north < self.south
    }

    // The least box with both in it.
    pub fn together(self, other: Extent) -> Extent
        ensures { result ≡ box_together self other }
    {
        Extent {
            west: self.west.min(other.west),
            south: self.south.min(other.south),
            east: self.east.max(other.east),
            north: self.north.max(other.north),
        }
    }

    // The least box around this one and a corner.
    fn grown_to(self, c: Corner) -> Extent
        ensures { result ≡ grown_to self (at c) }
    {
        self.together(Extent {
            west: c.x,
            south: c.y,
            east: c.x,
            north: c.y,
        })
    }
}
