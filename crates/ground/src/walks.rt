// Walks along a row: over its corners, along the edges between them, and around its ring.
ghost use Rattle.ground.specs.Walks.{corners_left, edges_left};

use plane::{Corner, Edge};

// The corners of a row, in their order; a number that is left over is none.
#[derive(Clone, Copy, Debug)]
pub struct Corners<'a> {
    rest: &'a [u64],
}

impl<'a> Corners<'a> {
    ghost use Rattle.std.specs.Prelude.{◌≡◌};
    ghost use Rattle.ground.specs.Rows.{shape_of};

    pub fn of(row: &'a [u64]) -> Corners<'a>
        ensures { corners_left result ≡ shape_of row.now }
    {
        Corners { rest: row }
    }
}

impl<'a> Iterator for Corners<'a> {
    ghost use Rattle.std.specs.Iterator.{YieldsFirstBy, item_count};
    ghost use Rattle.plane.specs.Code.{at};

    type Item = Corner;

    ghost next_gives = { YieldsFirstBy at corners_left };

    ghost remaining = { item_count corners_left };

    #[inline]
    fn next(&mut self) -> Option<Corner> {
        let [x, y, rest @ ..] = self.rest else {
            return None;
        };
        self.rest = rest;
        Some(Corner { x: *x, y: *y })
    }
}

// Edges over the corners of a row, one after the other, and back to a first corner if there is one.
#[derive(Clone, Copy, Debug)]
pub struct Edges<'a> {
    one: Corner,
    rest: Corners<'a>,
    first: Option<Corner>,
}

impl<'a> Edges<'a> {
    ghost use Rattle.std.specs.Prelude.{◌≡◌};
    ghost use Rattle.plane.specs.Code.{at};
    ghost use Rattle.ground.specs.Paths.{path};
    ghost use Rattle.ground.specs.Rows.{shape_of};
    ghost use Rattle.ground.specs.Shapes.{edges};

    // Those of a row's ring: from each corner to the next, and at last the one back to the first corner.
    pub fn of(row: &'a [u64]) -> Edges<'a>
        ensures { edges_left result ≡ edges (shape_of row.now) }
    {
        let mut rest = Corners::of(row);
        let first = rest.next();
        let one = first.unwrap_or(Corner { x: 0, y: 0 });
        Edges { one, rest, first }
    }

    // Those of the path from a corner over others to the last of these.
    pub fn along(one: Corner, rest: Corners<'a>) -> Edges<'a>
        ensures { edges_left result ≡ path (at one) (corners_left rest.entry) }
    {
        Edges {
            one,
            rest,
            first: None,
        }
    }
}

impl<'a> Iterator for Edges<'a> {
    ghost use Rattle.std.specs.Iterator.{YieldsFirstBy, item_count};
    ghost use Rattle.plane.specs.Code.{along};

    type Item = Edge;

    ghost next_gives = { YieldsFirstBy along edges_left };

    ghost remaining = { item_count edges_left };

    #[inline]
    fn next(&mut self) -> Option<Edge> {
        let one = self.one;
        if let Some(other) = self.rest.next() {
            self.one = other;
            return Some(Edge { one, other });
        }
        let other = self.first.take()?;
        Some(Edge { one, other })
    }
}
