// Windows over the map.
ghost use Rattle.std.specs.Prelude.{◌≡◌, ◌^◌, ◌<◌};
ghost use Rattle.raster.specs.Windows.{side_across, side_up, middle};

use terms::{NUMERATOR_LIMIT, Point};

// Columns by rows of squares, step by step ells each, from the south-west corner x, y on.
#[derive(Clone, Copy, PartialEq, Eq, Debug)]
pub struct Window {
    pub x: u64,
    pub y: u64,
    pub step: u64,
    pub columns: u32,
    pub rows: u32,
}

impl Window {
    // How far in the east the western side of a column lies; behind the last one, the window's eastern side.
    #[tactic(auto, using(crate::proofs::Sides::side_bound))]
    pub(crate) fn side_across(self, column: u32) -> u128
        ensures value { result ≡ side_across self column }
        ensures bound { result < 2 ^ 97 }
    {
        self.x as u128 + self.step as u128 * column as u128
    }

    // How far in the north the northern side of a row lies, counted from the north; behind the last one, the window's southern side.
    #[tactic(auto, using(crate::proofs::Sides::side_bound))]
    pub(crate) fn side_up(self, row: u32) -> u128
        ensures value { result ≡ side_up self row }
        ensures bound { result < 2 ^ 97 }
    {
        self.y as u128 + self.step as u128 * self.rows.saturating_sub(row) as u128
    }

    // The middle of a square, row 0 being the northern one; none where the window has no such square, or the machine cannot be asked so far out.
    pub fn middle(self, column: u32, row: u32) -> Option<Point>
        ensures { result ≡ middle self column row }
    {
        if column >= self.columns || row >= self.rows {
            return None;
        }
        let a = self.side_across(column) + self.side_across(column + 1);
        let b = self.side_up(row) + self.side_up(row + 1);
        if a >= NUMERATOR_LIMIT as u128 || b >= NUMERATOR_LIMIT as u128 {
            return None;
        }
        Some(Point {
            a: a as u64,
            b: b as u64,
            w: 2,
        })
    }
}
