// A second way of looking at a point, with code of its own, so that no mistake is in both: how often the ring winds round it, by the edges over the point's meridian.
use terms::Point;

// A spot of the plane, all made as many times as large as makes the point a whole one. All numbers here are far below 2^30, so that nothing wraps.
#[derive(Clone, Copy)]
struct Spot {
    x: i64,
    y: i64,
}

fn signed(n: u64) -> i64 {
    i64::try_from(n).unwrap_or(i64::MAX)
}

impl Spot {
    fn grown(x: u64, y: u64, times: u64) -> Self {
        Spot {
            x: signed(x).wrapping_mul(signed(times)),
            y: signed(y).wrapping_mul(signed(times)),
        }
    }

    fn way_to(self, other: Spot) -> Self {
        Spot {
            x: other.x.wrapping_sub(self.x),
            y: other.y.wrapping_sub(self.y),
        }
    }

    // Twice the signed area that two ways span.
    fn spanned(self, other: Spot) -> i64 {
        let east = self.x.wrapping_mul(other.y);
        let north = self.y.wrapping_mul(other.x);
        east.wrapping_sub(north)
    }

    // The spot is seen from the edge under half a turn: it lies on the line, and between the ends.
    fn is_on(self, from: Spot, to: Spot) -> bool {
        let (back, on) = (self.way_to(from), self.way_to(to));
        let east = back.x.wrapping_mul(on.x);
        let north = back.y.wrapping_mul(on.y);
        back.spanned(on) == 0 && east.wrapping_add(north) <= 0
    }

    // What an edge adds to the winding: it passes the meridian north of the spot eastward or westward.
    fn passed_by(self, from: Spot, to: Spot) -> i64 {
        let side = from.way_to(to).spanned(from.way_to(self));
        if from.x <= self.x && self.x < to.x && side < 0 {
            -1
        } else if to.x <= self.x && self.x < from.x && side > 0 {
            1
        } else {
            0
        }
    }
}

// The point lies in the ring of a row, or on it.
pub(crate) fn has(row: &[u64], point: Point) -> bool {
    let (corners, _) = row.as_chunks::<2>();
    let Some([x, y]) = corners.last() else {
        return false;
    };
    let spot = Spot::grown(point.a, point.b, 1);
    let mut from = Spot::grown(*x, *y, point.w);
    let mut winding: i64 = 0;
    for [x, y] in corners {
        let to = Spot::grown(*x, *y, point.w);
        if spot.is_on(from, to) {
            return true;
        }
        winding = winding.wrapping_add(spot.passed_by(from, to));
        from = to;
    }
    winding != 0
}
