// Crossings: whether the way from a point straight to the east crosses an odd number of a ring's edges.
ghost use Rattle.std.specs.Prelude.{◌≡◌, ◌<◌, nat_lt};
ghost use Rattle.ground.specs.Looks.{point};
ghost use Rattle.plane.specs.Code.{along};
ghost use Rattle.plane.specs.Edges.{grown_edge};
ghost use Rattle.plane.specs.Parity.{xor, crosses};
ghost use Rattle.plane.specs.Sights.{place};
ghost use Rattle.relate.specs.Going.{shape_in};
ghost use Rattle.relate.specs.Samples.{raw};

use crate::ring::{NearEdge, Ring};
use plane::{Edge, Sight, Viewer};
use terms::Point;

// The denominator of the points that are asked.
const SCALE: u64 = 1048576;

// The parity of a ring at a / SCALE, b / SCALE. Two comparisons tell of most edges that they do not reach over the point's height.
pub(crate) fn is_odd(a: u64, b: u64, ring: &Ring<'_>) -> bool
    requires { (a < 4398046511104) × (b < 4398046511104) }
    ensures { result ≡ raw (shape_in ring.now) (point a b 1048576) }
{
    let Some(viewer) = Viewer::new(Point { a, b, w: SCALE }) else {
        return false;
    };
    let floor = b / SCALE;
    let mut odd = false;
    for near in ring.edges() {
        if reaches_over(floor, near.edge) && crosses(viewer, near) {
            odd = !odd;
        }
    }
    odd
}

// Whether just one end of an edge is above the whole height.
fn reaches_over(floor: u64, e: Edge) -> bool
    ensures { result ≡ xor (nat_lt floor e.one.y) (nat_lt floor e.other.y) }
{
    if floor < e.one.y {
        e.other.y <= floor
    } else {
        floor < e.other.y
    }
}

fn crosses(viewer: Viewer, near: NearEdge) -> bool
    ensures { result ≡ crosses (grown_edge viewer.scale (along near.edge)) (place viewer) }
{
    viewer.look(near.edge) == Some(Sight::Crossed)
}
