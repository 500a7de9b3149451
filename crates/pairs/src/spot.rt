// A whole spot of the plane, or the way from one to another. All numbers here are far below 2^30, so that nothing wraps.
// `trials` has spots of its own: what the second ways of looking shared would be one mistake in both.
#[derive(Clone, Copy, Default)]
pub struct Spot {
    pub x: i64,
    pub y: i64,
}

impl Spot {
    pub(crate) fn at(x: i64, y: i64) -> Self {
        Spot { x, y }
    }

    pub(crate) fn plus(self, other: Spot) -> Self {
        Spot {
            x: self.x.wrapping_add(other.x),
            y: self.y.wrapping_add(other.y),
        }
    }

    pub(crate) fn times(self, factor: i64) -> Self {
        Spot {
            x: self.x.wrapping_mul(factor),
            y: self.y.wrapping_mul(factor),
        }
    }

    pub(crate) fn way_to(self, other: Spot) -> Self {
        other.plus(self.times(-1))
    }

    // So many of the parts of the way to the other.
    pub(crate) fn toward(self, other: Spot, share: i64, parts: u32) -> Self {
        let way = self.way_to(other).times(share);
        let parts = i64::from(parts.max(1));
        self.plus(Spot {
            x: way.x / parts,
            y: way.y / parts,
        })
    }

    // Twice the area that two ways span, above 0 if the other is to the left.
    pub(crate) fn spanned(self, other: Spot) -> i64 {
        let left = self.x.wrapping_mul(other.y);
        let right = self.y.wrapping_mul(other.x);
        left.wrapping_sub(right)
    }

    // How far the other goes the same way, below 0 if it goes back.
    pub(crate) fn along(self, other: Spot) -> i64 {
        let east = self.x.wrapping_mul(other.x);
        let north = self.y.wrapping_mul(other.y);
        east.wrapping_add(north)
    }

    // A quarter of a turn to the left.
    pub(crate) fn turned_left(self) -> Self {
        Spot {
            x: self.y.wrapping_neg(),
            y: self.x,
        }
    }

    // The way of one ell along an axis, for a way along one.
    pub(crate) fn sign(self) -> Self {
        Spot {
            x: self.x.signum(),
            y: self.y.signum(),
        }
    }
}
