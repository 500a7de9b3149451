// Sides: what lies beside the edges of two rings.
ghost use Rattle.std.specs.Prelude.{◌≡◌, ◌<◌};
ghost use Rattle.plane.specs.Code.{along};
ghost use Rattle.relate.specs.Going.{shape_in};
ghost use Rattle.relate.specs.Siding.{sides_of, sides_along, both_sides, turned_sides, all_seen};

use crate::parities::Parities;
use crate::ring::{NearEdge, Ring};
use std::ops::BitOr;

// What some sample beside a ring's edges lies in.
#[derive(Clone, Copy, Default)]
pub(crate) struct Sides {
    // In both rings.
    pub(crate) both: bool,
    // In the ring whose edges are gone along, and not in the other.
    pub(crate) own: bool,
    // In the other ring alone.
    pub(crate) other: bool,
}

// What is seen of both.
impl BitOr for Sides {
    type Output = Sides;

    ghost bitor_gives = { λ p q r. r ≡ both_sides p q };

    fn bitor(self, more: Sides) -> Sides {
        Sides {
            both: self.both || more.both,
            own: self.own || more.own,
            other: self.other || more.other,
        }
    }
}

impl Sides {
    // Along the edges of a ring, beside another, with what was seen before.
    pub(crate) fn along(self, ring: &Ring<'_>, beside: &Ring<'_>) -> Sides
        ensures { result ≡ both_sides self (sides_along (shape_in ring.now) (shape_in beside.now)) }
    {
        let mut sides = self;
        for near in ring.edges() {
            sides = sides.beside(near, beside);
            if sides.all() {
                return sides;
            }
        }
        sides
    }

    // With one more edge. The ring is on its left: the edge's direction tells what is just to its east, and no edge is looked at that can show nothing new.
    fn beside(self, near: NearEdge, ring: &Ring<'_>) -> Sides
        ensures { result ≡ both_sides self (sides_of (shape_in ring.now) (along near.edge)) }
    {
        let e = near.edge;
        if e.one.y < e.other.y {
            self.beside_rising(near, ring)
        } else if e.other.y < e.one.y {
            self.beside_falling(near, ring)
        } else {
            self
        }
    }

    // An edge that goes up has the ring's outside just to its east.
    fn beside_rising(self, near: NearEdge, ring: &Ring<'_>) -> Sides
        requires { near.edge.one.y < near.edge.other.y }
        ensures { result ≡ both_sides self (sides_of (shape_in ring.now) (along near.edge)) }
    {
        if self.other {
            return self;
        }
        let seen = Parities::near(near, ring);
        self | Sides {
            other: seen.odd,
            ..Sides::default()
        }
    }

    // One that goes down has the inside there.
    fn beside_falling(self, near: NearEdge, ring: &Ring<'_>) -> Sides
        requires { near.edge.other.y < near.edge.one.y }
        ensures { result ≡ both_sides self (sides_of (shape_in ring.now) (along near.edge)) }
    {
        if self.both && self.own {
            return self;
        }
        let seen = Parities::near(near, ring);
        self | Sides {
            both: seen.odd,
            own: seen.even,
            other: false,
        }
    }

    // The same, seen from the other ring.
    pub(crate) fn turned(self) -> Sides
        ensures { result ≡ turned_sides self }
    {
        Sides {
            both: self.both,
            own: self.other,
            other: self.own,
        }
    }

    // Whether there is nothing new to be seen.
    fn all(self) -> bool
        ensures { result ≡ all_seen self }
    {
        self.both && self.own && self.other
    }
}
