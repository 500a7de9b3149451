// A point and a ground: whether the point is on the border, and whether the way to the east crosses an odd number of edges.
ghost use Rattle.std.specs.Prelude.{◌≡◌, ◌%◌, length, Some, None};
ghost use Rattle.ground.specs.Looks.{point as point_at, look_fits, look_of, noted};
ghost use Rattle.ground.specs.Rows.{shape_of};
ghost use Rattle.ground.specs.Shapes.{in_shape};
ghost use Rattle.plane.specs.Lists.{pick};

use crate::walks::Edges;
use plane::{Sight, Viewer};
use terms::Point;

// What a point sees of a row's edges.
#[derive(Clone, Copy, PartialEq, Eq, Debug)]
pub struct Look {
    // The point is on an edge.
    pub border: bool,
    // The way from the point straight to the east crosses an odd number of edges.
    pub odd: bool,
}

impl Look {
    // The look from the point a / w, b / w at the ring of a row; nothing if a number is left over or out of range.
    pub fn at(row: &[u64], point: Point) -> Option<Look>
        ensures { result ≡ pick (look_fits row.now point.a point.b point.w) (Some (look_of (shape_of row.now) (point_at point.a point.b point.w))) None }
    {
        if row.len() % 2 != 0 {
            return None;
        }
        Look::around(row, point)
    }

    // The same for a row of whole corners: one edge after the other. Most grounds of a map are told by their boxes alone, and this is kept out of the way of that.
    #[inline(never)]
    fn around(row: &[u64], point: Point) -> Option<Look>
        requires { length row.now % 2 ≡ 0 }
        ensures { result ≡ pick (look_fits row.now point.a point.b point.w) (Some (look_of (shape_of row.now) (point_at point.a point.b point.w))) None }
    {
        let viewer = Viewer::new(point)?;
        let mut look = Look {
            border: false,
            odd: false,
        };
        for edge in Edges::of(row) {
            look = look.noted(viewer.look(edge)?);
        }
        Some(look)
    }

    // With one more edge looked at.
    fn noted(self, sight: Sight) -> Look
        ensures { result ≡ noted self sight }
    {
        match sight {
            Sight::Border => Look {
                border: true,
                odd: self.odd,
            },
            Sight::Crossed => Look {
                border: self.border,
                odd: !self.odd,
            },
            Sight::Missed => self,
        }
    }
}

// Whether the ground of a row has the point a / w, b / w; nothing if a number is left over or out of range.
pub fn has_point(row: &[u64], point: Point) -> Option<bool>
    ensures { result ≡ pick (look_fits row.now point.a point.b point.w) (Some (in_shape (shape_of row.now) (point_at point.a point.b point.w))) None }
{
    let look = Look::at(row, point)?;
    Some(look.border || look.odd)
}
