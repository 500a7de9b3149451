// What else is drawn at random here: spots of a field, and numbers that may be below 0.
use crate::spot::Spot;
use figures::Random;

// The whole spots from a corner on, so many to the east and so many to the north.
#[derive(Clone, Copy)]
pub struct Field {
    pub corner: Spot,
    pub width: u32,
    pub height: u32,
}

impl Field {
    pub(crate) fn square(side: u32) -> Self {
        Field {
            corner: Spot::default(),
            width: side,
            height: side,
        }
    }
}

pub(crate) trait Draw {
    // One of so many numbers from `low` on.
    fn from(&mut self, low: i64, count: u32) -> i64;

    fn spot(&mut self, field: Field) -> Spot;
}

impl Draw for Random {
    fn from(&mut self, low: i64, count: u32) -> i64 {
        low.wrapping_add(i64::from(self.below(count)))
    }

    fn spot(&mut self, field: Field) -> Spot {
        let x = self.from(field.corner.x, field.width);
        let y = self.from(field.corner.y, field.height);
        Spot { x, y }
    }
}
