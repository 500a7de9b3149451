// An edge from one corner to another.
ghost use Rattle.std.specs.Prelude.{◌≡◌, not, ◌&&◌};
ghost use Rattle.plane.specs.Code.{at, along, TurnsSo};
ghost use Rattle.plane.specs.Edges.{on_edge, cross_over, meet, rises, falls};
ghost use Rattle.plane.specs.Extents.{boxes_meet};
ghost use Rattle.plane.specs.Sides.{parts, leaves_aside};
ghost use Rattle.plane.specs.Lists.{or};

use crate::corner::Corner;
use crate::extent::{between, ranges_meet};
use crate::turning::Turn;

// An edge goes from `one` to `other`; both may be the same corner.
#[derive(Clone, Copy, PartialEq, Eq, Debug)]
pub struct Edge {
    pub one: Corner,
    pub other: Corner,
}

impl Edge {
    // Whether c is a point of the edge, its ends among them.
    pub fn on_edge(self, c: Corner) -> bool
        ensures { result ≡ on_edge (along self) (at c) }
    {
        between(self.one.x, self.other.x, c.x)
            && between(self.one.y, self.other.y, c.y)
            && self.side(c) == Turn::Straight
    }

    // Whether each edge has its ends on the two sides of the other.
    pub fn cross_over(self, f: Edge) -> bool
        ensures { result ≡ cross_over (along self) (along f) }
    {
        self.parts(f) && f.parts(self)
    }

    // Whether the two have a point in common.
    pub fn meet(self, f: Edge) -> bool
        ensures { result ≡ meet (along self) (along f) }
    {
        self.is_close(f)
    }

    // Whether the way from c straight to the east crosses the edge: its lower end counts, its upper one does not, and a level edge is never crossed.
    pub fn crosses(self, c: Corner) -> bool
        ensures { result ≡ or (rises (along self) (at c)) (falls (along self) (at c)) }
    {
        if self.one.y <= c.y && c.y < self.other.y {
            return self.side(c) == Turn::Left;
        }
        if self.other.y <= c.y && c.y < self.one.y {
            return self.side(c) == Turn::Right;
        }
        false
    }

    // On which side of the edge c lies.
    fn side(self, c: Corner) -> Turn
        ensures { TurnsSo (at self.one) (at self.other) (at c) result }
    {
        self.one.turn(self.other, c)
    }

    // Whether the ends of f lie on the two sides of this edge.
    fn parts(self, f: Edge) -> bool
        ensures { result ≡ parts (along self) (along f) }
    {
        matches!(
            (self.side(f.one), self.side(f.other)),
            (Turn::Left, Turn::Right) | (Turn::Right, Turn::Left)
        )
    }

    // Whether both ends of f lie on the one side of this edge.
    fn leaves_aside(self, f: Edge) -> bool
        ensures { result ≡ leaves_aside (along self) (along f) }
    {
        matches!(
            (self.side(f.one), self.side(f.other)),
            (Turn::Left, Turn::Left) | (Turn::Right, Turn::Right)
        )
    }

    // Whether the bounding boxes of the two have a point in common.
    fn box_meets(self, f: Edge) -> bool
        ensures { result ≡ boxes_meet (along self) (along f) }
    {
        ranges_meet(self.one.x, self.other.x, f.one.x, f.other.x)
            && ranges_meet(self.one.y, self.other.y, f.one.y, f.other.y)
    }

    // Whether the two are so close that they meet. Most edges are told apart by their bounding boxes, the others by sides.
    fn is_close(self, f: Edge) -> bool
        ensures { result ≡ (boxes_meet (along self) (along f) && (not (leaves_aside (along self) (along f)) && not (leaves_aside (along f) (along self)))) }
    {
        self.box_meets(f) && !self.leaves_aside(f) && !f.leaves_aside(self)
    }
}
