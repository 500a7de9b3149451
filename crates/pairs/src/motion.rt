// Moving, turning, mirroring, stretching and slanting the plane.
use crate::spot::Spot;
use figures::Random;

// Where a spot goes: to the origin, then x times `east`, then y times `north`.
#[derive(Clone, Copy)]
pub struct Motion {
    pub origin: Spot,
    pub east: Spot,
    pub north: Spot,
}

// Mirrored grounds still lie on the map.
const FAR: i64 = 64;

impl Motion {
    pub(crate) fn by(way: Spot) -> Self {
        Motion {
            origin: way,
            east: Spot::at(1, 0),
            north: Spot::at(0, 1),
        }
    }

    pub(crate) fn stretched(factor: i64) -> Self {
        Motion {
            origin: Spot::at(0, 0),
            east: Spot::at(factor, 0),
            north: Spot::at(0, factor),
        }
    }

    // One of the eight ways to lay a square onto itself.
    pub(crate) fn symmetry(random: &mut Random) -> Self {
        let x_back = random.one_in(2);
        let y_back = random.one_in(2);
        let east = if x_back {
            Spot::at(-1, 0)
        } else {
            Spot::at(1, 0)
        };
        let north = if y_back {
            Spot::at(0, -1)
        } else {
            Spot::at(0, 1)
        };
        let origin = Spot::at(if x_back { FAR } else { 0 }, if y_back { FAR } else { 0 });
        if random.one_in(2) {
            Motion {
                origin,
                east,
                north,
            }
        } else {
            Motion {
                origin,
                east: north,
                north: east,
            }
        }
    }

    pub(crate) fn of(self, spot: Spot) -> Spot {
        self.origin
            .plus(self.east.times(spot.x))
            .plus(self.north.times(spot.y))
    }

    // What was gone round to the left is gone round to the right.
    pub(crate) fn mirrors(self) -> bool {
        self.east.spanned(self.north) < 0
    }
}
