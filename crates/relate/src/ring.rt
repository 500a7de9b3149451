// Rings of corners in range, with their boxes: most edges of two grounds are told apart by four comparisons.
ghost use Rattle.std.specs.Prelude.{◌≡◌, true, false, MatchOption};
ghost use Rattle.ground.specs.Rows.{shape_of, near_corner};
ghost use Rattle.plane.specs.Code.{at, along};
ghost use Rattle.plane.specs.Corners.{corner};
ghost use Rattle.plane.specs.Lists.{every};
ghost use Rattle.plane.specs.Sights.{near_edge};
ghost use Rattle.relate.specs.Fitting.{row_fits, bounds_of};
ghost use Rattle.relate.specs.Rings.{pair_corner, as_corners, edges_round, last_after};

use ground::Extent;
use plane::{CORNER_LIMIT, Corner, Edge};

// The box of a row without corners: no box in range has a point of it.
const NOWHERE: Extent = Extent {
    west: CORNER_LIMIT,
    south: CORNER_LIMIT,
    east: 0,
    north: 0,
};

// The corners of a row in range, two numbers each, and their box.
#[derive(Clone, Copy)]
pub(crate) struct Ring<'a> {
    pub(crate) corners: &'a [[u64; 2]],
    bounds: Extent,
    ghost near: { every near_corner (as_corners corners.now) ≡ true },
    ghost bounded: { bounds ≡ bounds_of (as_corners corners.now) },
}

// An edge between corners in range.
#[derive(Clone, Copy)]
pub(crate) struct NearEdge {
    pub(crate) edge: Edge,
    ghost near: { near_edge (along edge) ≡ true },
}

// The edges of a ring that are left, from one corner to the next. The one that closes the ring comes first: a loop as that of Contact::along takes 11 per cent
// more instructions over ground::Edges, which ends with it.
#[derive(Drop)]
pub(crate) struct NearEdges<'a> {
    one: Corner,
    rest: &'a [[u64; 2]],
    ghost one_near: { near_corner (at one) ≡ true },
    ghost rest_near: { every near_corner (as_corners rest.now) ≡ true },
}

impl<'a> Ring<'a> {
    ghost use Rattle.ground.specs.Boxes.{boxes_apart};
    ghost use Rattle.relate.specs.Finding.{misses};
    ghost use Rattle.relate.specs.Going.{shape_in, edges_left};

    // The ring of a row; nothing if a number of it is left over or out of range.
    pub(crate) fn of(row: &'a [u64]) -> Option<Ring<'a>>
        ensures { MatchOption result (row_fits row.now ≡ false) (λ ring. (row_fits row.now ≡ true) × (shape_in ring ≡ shape_of row.now)) }
    {
        let bounds = bounds(row)?;
        let (corners, _) = row.as_chunks::<2>();
        Some(Ring { corners, bounds })
    }

    // Whether the boxes of the two have no point in common.
    pub(crate) fn is_apart(&self, other: &Ring<'_>) -> bool
        ensures { result ≡ boxes_apart (bounds_of (shape_in self.now)) (bounds_of (shape_in other.now)) }
    {
        self.bounds.is_apart(other.bounds)
    }

    // Whether all of an edge is to one side of the box.
    pub(crate) fn misses(&self, e: Edge) -> bool
        ensures { result ≡ misses (bounds_of (shape_in self.now)) (along e) }
    {
        let edge_box = Extent {
            west: e.one.x.min(e.other.x),
            south: e.one.y.min(e.other.y),
            east: e.one.x.max(e.other.x),
            north: e.one.y.max(e.other.y),
        };
        edge_box.is_apart(self.bounds)
    }

    // The edges, gone along from the last corner to the first and on.
    pub(crate) fn edges(&self) -> NearEdges<'a>
        ensures { edges_left result ≡ edges_round (shape_in self.now) }
    {
        NearEdges {
            one: last_corner(self.corners),
            rest: self.corners,
        }
    }
}

impl<'a> Iterator for NearEdges<'a> {
    ghost use Rattle.std.specs.Iterator.{YieldsFirstBy, item_count};
    ghost use Rattle.relate.specs.Going.{edge_of, edges_left};

    type Item = NearEdge;

    ghost next_gives = { YieldsFirstBy edge_of edges_left };

    ghost remaining = { item_count edges_left };

    fn next(&mut self) -> Option<NearEdge> {
        let [pair, rest @ ..] = self.rest else {
            return None;
        };
        let one = self.one;
        let other = corner_of(pair);
        self.one = other;
        self.rest = rest;
        Some(NearEdge {
            edge: Edge { one, other },
        })
    }
}

// The box of a row; nothing if a number of it is left over or out of range.
fn bounds(row: &[u64]) -> Option<Extent>
    ensures { MatchOption result (row_fits row.now ≡ false) (λ b. (row_fits row.now ≡ true) × (b ≡ bounds_of (shape_of row.now))) }
{
    if row.is_empty() {
        return Some(NOWHERE);
    }
    let extent = Extent::of(row)?;
    if extent.east < CORNER_LIMIT && extent.north < CORNER_LIMIT {
        Some(extent)
    } else {
        None
    }
}

// The corner that has these numbers.
pub(crate) fn corner_of(pair: &[u64; 2]) -> Corner
    ensures { at result ≡ pair_corner pair.now }
{
    let [x, y] = *pair;
    Corner { x, y }
}

// The last of some corners; any where there is none.
fn last_corner(corners: &[[u64; 2]]) -> Corner
    ensures { at result ≡ last_after (corner 0 0) (as_corners corners.now) }
{
    match corners {
        [.., pair] => corner_of(pair),
        [] => Corner { x: 0, y: 0 },
    }
}
