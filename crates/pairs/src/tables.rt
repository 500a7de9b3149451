// Rings that are written down corner by corner.
use crate::spot::Spot;

// What the spiral leaves free.
pub(crate) const GAP: [Spot; 12] = [
    Spot { x: 0, y: 1 },
    Spot { x: 6, y: 1 },
    Spot { x: 6, y: 6 },
    Spot { x: 1, y: 6 },
    Spot { x: 1, y: 3 },
    Spot { x: 4, y: 3 },
    Spot { x: 4, y: 4 },
    Spot { x: 2, y: 4 },
    Spot { x: 2, y: 5 },
    Spot { x: 5, y: 5 },
    Spot { x: 5, y: 2 },
    Spot { x: 0, y: 2 },
];

// Two sails of a pinwheel: they lie over each other, and yet each border only bends where it comes to the other's.
pub(crate) const LEVEL_SAIL: [Spot; 4] = [
    Spot { x: 0, y: 1 },
    Spot { x: 2, y: 1 },
    Spot { x: 3, y: 2 },
    Spot { x: 1, y: 2 },
];

pub(crate) const UPRIGHT_SAIL: [Spot; 4] = [
    Spot { x: 2, y: 0 },
    Spot { x: 2, y: 2 },
    Spot { x: 1, y: 3 },
    Spot { x: 1, y: 1 },
];
