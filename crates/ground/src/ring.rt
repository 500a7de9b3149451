// The edges of a ring: neighbours have their corner in common, and no other two have anything.
ghost use Rattle.std.specs.Prelude.{◌≡◌, ◌%◌, ◌^◌, ◌<◌, ◌≤◌, true, false, length, MatchOption, MatchResult};
ghost use Rattle.ground.specs.Paths.{FirstMet, fits_last};
ghost use Rattle.ground.specs.Walks.{edges_left};
ghost use Rattle.ground.specs.Refusals.{InRange, Refuses};
ghost use Rattle.ground.specs.Rows.{shape_of};
ghost use Rattle.ground.specs.Shapes.{edges, neighbours_fine, clear_of, ring_clear};
ghost use Rattle.plane.specs.Code.{along};

use crate::refusal::NoGround;
use crate::walks::{Corners, Edges};
use plane::{Corner, Edge};

// No two edges of a ring meet, but for neighbours in their corner; if they do, the first two that do.
pub(crate) fn edges_apart(row: &[u64]) -> Result<(), NoGround>
    requires { InRange row.now }
    ensures { MatchResult result (λ _. ring_clear (edges (shape_of row.now)) ≡ true) (λ why. Refuses row.now why) }
{
    let [ax, ay, bx, by, others @ ..] = row else {
        return Err(NoGround::TooFew);
    };
    let [.., zx, zy] = row else {
        return Err(NoGround::TooFew);
    };
    let end = row.len() as u64 / 2;
    let start = Corner { x: *ax, y: *ay };
    let last = Edge {
        one: Corner { x: *zx, y: *zy },
        other: start,
    };
    let mut edge = Edge {
        one: start,
        other: Corner { x: *bx, y: *by },
    };
    let mut first = 1;
    let mut rest = Edges::along(edge.other, Corners::of(others));
    // The edges behind the next one are walked too: no `for` can lend them.
    while let Some(next) = rest.next() {
        if !joined(edge, next) {
            let second = first + 1;
            return Err(NoGround::EdgesMeet { first, second });
        }
        if let Some(between) = first_met(edge, rest) {
            let second = first + 2 + between as u64;
            return Err(NoGround::EdgesMeet { first, second });
        }
        if !fits_last(first, edge, last) {
            return Err(NoGround::EdgesMeet { first, second: end });
        }
        edge = next;
        first += 1;
    }
    if joined(edge, last) {
        Ok(())
    } else {
        Err(NoGround::EdgesMeet { first, second: end })
    }
}

// How many edges come before the first that meets e.
fn first_met(e: Edge, mut others: Edges<'_>) -> Option<usize>
    requires { length (edges_left others) < 2 ^ 64 }
    ensures { MatchOption result (clear_of (along e) (edges_left others.entry) ≡ true) (λ k. FirstMet (along e) (edges_left others.entry) k) }
{
    others.position(|f| e.meet(f))
}

// Whether an edge and the last one of the ring fit: the first edge is its neighbour.
fn fits_last(number: u64, e: Edge, last: Edge) -> bool
    ensures { result ≡ fits_last number (along e) (along last) }
{
    if number == 1 {
        joined(last, e)
    } else {
        !e.meet(last)
    }
}

// Whether f begins where e ends, and they have nothing else in common.
fn joined(e: Edge, f: Edge) -> bool
    ensures { result ≡ neighbours_fine (along e) (along f) }
{
    e.other == f.one && !e.on_edge(f.other) && !f.on_edge(e.one) && e.one != e.other
}
