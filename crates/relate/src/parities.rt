// Parities: beside which edges another ring's inside lies, told just after each corner that the edges go through.
ghost use Rattle.std.specs.Prelude.{◌≡◌, true, false, not, ◌==◌};
ghost use Rattle.ground.specs.Rows.{near_corner};
ghost use Rattle.plane.specs.Code.{at, along};
ghost use Rattle.relate.specs.Going.{shape_in};
ghost use Rattle.relate.specs.Samples.{raw, sample};
ghost use Rattle.relate.specs.Siding.{parities_of, parities_later, both_parities, goes_on_at};

use crate::crossings::is_odd;
use crate::ring::{NearEdge, Ring, corner_of};
use plane::{Corner, Edge};
use std::ops::BitOr;

// A sample lies so near behind a corner that no other is between them: one part in 2^20 of the way to the edge's end, so that the corner has the other parts.
const STAY: u64 = 1048575;

// Which parities a ring has at the samples of an edge.
#[derive(Clone, Copy, Default)]
pub(crate) struct Parities {
    pub(crate) odd: bool,
    pub(crate) even: bool,
}

// Those of both.
impl BitOr for Parities {
    type Output = Parities;

    ghost bitor_gives = { λ p q r. r ≡ both_parities p q };

    fn bitor(self, more: Parities) -> Parities {
        Parities {
            odd: self.odd || more.odd,
            even: self.even || more.even,
        }
    }
}

impl Parities {
    // At the samples of an edge that is not level; outside the ring's box all is even.
    pub(crate) fn near(near: NearEdge, ring: &Ring<'_>) -> Parities
        requires { (near.edge.one.y == near.edge.other.y) ≡ false }
        ensures { result ≡ parities_of (shape_in ring.now) (along near.edge) }
    {
        if ring.misses(near.edge) {
            return Parities::of(false);
        }
        Parities::along(near, ring)
    }

    // After the edge's first corner, and after each other of the ring's corners that lies on the edge.
    fn along(near: NearEdge, ring: &Ring<'_>) -> Parities
        requires { (near.edge.one.y == near.edge.other.y) ≡ false }
        ensures { result ≡ parities_of (shape_in ring.now) (along near.edge) }
    {
        let mut seen = Parities::of(parity_after(near, near.edge.one, ring));
        for pair in ring.corners {
            let u = corner_of(pair);
            if goes_on(near.edge, u.y) {
                seen = seen | Parities::later(near, u, ring);
            }
        }
        seen
    }

    // After a corner behind the edge's first, at a height where the edge goes on; none where it is not on the edge.
    fn later(near: NearEdge, u: Corner, ring: &Ring<'_>) -> Parities
        requires { (near_corner (at u) ≡ true) × (goes_on_at (along near.edge) u.y ≡ true) }
        ensures { result ≡ parities_later (shape_in ring.now) (along near.edge) (at u) }
    {
        if !near.edge.on_edge(u) || near.edge.one == u {
            return Parities::default();
        }
        Parities::of(parity_after(near, u, ring))
    }

    fn of(odd: bool) -> Parities
        ensures { result ≡ record { odd = odd; even = not odd } }
    {
        Parities { odd, even: !odd }
    }
}

// Whether the edge goes on, up or down, at a height.
fn goes_on(e: Edge, height: u64) -> bool
    ensures { result ≡ goes_on_at (along e) height }
{
    if e.one.y < e.other.y {
        e.one.y <= height && height < e.other.y
    } else {
        e.other.y < height && height <= e.one.y
    }
}

// The parity of the ring at the sample after the corner.
fn parity_after(near: NearEdge, u: Corner, ring: &Ring<'_>) -> bool
    requires { near_corner (at u) ≡ true }
    ensures { result ≡ raw (shape_in ring.now) (sample (along near.edge) (at u)) }
{
    let end = near.edge.other;
    is_odd(STAY * u.x + end.x, STAY * u.y + end.y, ring)
}
