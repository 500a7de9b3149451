// Looking at edges: heights first, which takes comparisons of words alone, and areas only of edges that reach the point's height.
ghost use Rattle.std.specs.Prelude.{◌≡◌, ◌*◌, ◌<◌, ◌≤◌, true, false, MatchOption, nat_lt};
ghost use Rattle.plane.specs.Bounds.{within};
ghost use Rattle.plane.specs.Code.{at, along, TurnsSo};
ghost use Rattle.plane.specs.Corners.{grown};
ghost use Rattle.plane.specs.Edges.{edge};
ghost use Rattle.plane.specs.Levels.{Floors, Ceils};
ghost use Rattle.plane.specs.Sights.{StandsAt, view_fits, near_edge, SeenSo, place};

use crate::area::{leaning, small_area};
use crate::corner::{CORNER_LIMIT, Corner};
use crate::edge::Edge;
use crate::extent::between;
use crate::sight::Sight;
use crate::turning::Turn;
use crate::viewer::Viewer;
use terms::Point;

// The largest denominator of a point.
const SCALE_LIMIT: u64 = 1048576;
// The numerators of a point are below this.
const POINT_LIMIT: u64 = 4398046511104;

impl Viewer {
    // At a point a / w, b / w; nothing if w is 0 or above 2^20, or a or b is 2^42 or more.
    pub fn new(point: Point) -> Option<Viewer>
        ensures { MatchOption result (view_fits point.a point.b point.w ≡ false) (λ v. (view_fits point.a point.b point.w ≡ true) × StandsAt v point.a point.b point.w) }
    {
        let Point { a, b, w } = point;
        if w == 0 || SCALE_LIMIT < w || POINT_LIMIT <= a || POINT_LIMIT <= b {
            return None;
        }
        let floor = floor_of(b, w);
        let ceiling = ceiling_of(b, w, floor);
        Some(Viewer {
            x: a,
            y: b,
            scale: w,
            floor,
            ceiling,
        })
    }

    // What the point sees of an edge; nothing if a corner of the edge is not below 2^20.
    pub fn look(self, e: Edge) -> Option<Sight>
        ensures { MatchOption result (near_edge (along e) ≡ false) (λ s. (near_edge (along e) ≡ true) × SeenSo self (along e) s) }
    {
        if !is_near(e) {
            return None;
        }
        Some(self.look_at(e))
    }

    // What the point sees of an edge that is near: the same, whichever way the edge is gone.
    fn look_at(self, e: Edge) -> Sight
        requires { near_edge (along e) ≡ true }
        ensures { SeenSo self (along e) result }
    {
        if e.one.y <= e.other.y {
            self.look_up(e.one, e.other)
        } else {
            self.look_up(e.other, e.one)
        }
    }

    // What the point sees of the edge from `low` to `high`, which does not fall.
    fn look_up(self, low: Corner, high: Corner) -> Sight
        requires { (within 1048576 (at low) ≡ true) × ((within 1048576 (at high) ≡ true) × (low.y ≤ high.y)) }
        ensures { SeenSo self (edge (at low) (at high)) result }
    {
        if self.is_below(low.y) {
            return Sight::Missed;
        }
        if self.is_above(high.y) {
            return Sight::Missed;
        }
        match self.side(low, high) {
            Turn::Straight => {
                if between(self.scale * low.x, self.scale * high.x, self.x) {
                    Sight::Border
                } else {
                    Sight::Missed
                }
            }
            Turn::Left => {
                if self.is_below(high.y) {
                    Sight::Crossed
                } else {
                    Sight::Missed
                }
            }
            Turn::Right => Sight::Missed,
        }
    }

    // Whether the point is below a whole height.
    fn is_below(self, height: u64) -> bool
        ensures { result ≡ nat_lt self.y (self.scale * height) }
    {
        self.floor < height
    }

    // Whether the point is above a whole height.
    fn is_above(self, height: u64) -> bool
        ensures { result ≡ nat_lt (self.scale * height) self.y }
    {
        height < self.ceiling
    }

    // On which side of the edge from `low` to `high` the point lies.
    fn side(self, low: Corner, high: Corner) -> Turn
        requires { (within 1048576 (at low) ≡ true) × (within 1048576 (at high) ≡ true) }
        ensures { TurnsSo (grown self.scale (at low)) (grown self.scale (at high)) (place self) result }
    {
        let left = small_area(low.x, high.x, self.scale * low.y, self.y);
        let right = small_area(low.y, high.y, self.scale * low.x, self.x);
        leaning(left, right)
    }
}

// Whether both corners are below the limit: none of their numbers has a bit that is too high.
fn is_near(e: Edge) -> bool
    ensures { result ≡ near_edge (along e) }
{
    (e.one.x | e.one.y | e.other.x | e.other.y) < CORNER_LIMIT
}

// The largest whole number that is not above y / scale.
fn floor_of(y: u64, scale: u64) -> u64
    requires { 1 ≤ scale }
    ensures { Floors y scale result }
{
    y / scale
}

// The smallest whole number that is not below y / scale; by the floor, which spares a second division.
fn ceiling_of(y: u64, scale: u64, floor: u64) -> u64
    requires { (1 ≤ scale) × ((Floors y scale floor) × (y < 4398046511104)) }
    ensures { Ceils y scale result }
{
    if scale * floor == y { floor } else { floor + 1 }
}
