// A corner, and how it turns with two others.
ghost use Rattle.std.specs.Prelude.{◌≡◌, true};
ghost use Rattle.plane.specs.Bounds.{all_within};
ghost use Rattle.plane.specs.Code.{at, TurnsSo};

use crate::area::{Area, leaning, small_area};
use crate::turning::Turn;

// Corners of grounds, and those that are looked at, have numbers below this.
pub const CORNER_LIMIT: u64 = 1048576;

// Turns of corners below this are found without numbers of 128 bits.
const NEAR_LIMIT: u64 = 2147483648;

// Two whole numbers, eastward and northward.
#[derive(Clone, Copy, PartialEq, Eq, Debug)]
pub struct Corner {
    pub x: u64,
    pub y: u64,
}

impl Corner {
    // How it turns on the way from this corner over b to c.
    pub fn turn(self, b: Corner, c: Corner) -> Turn
        ensures { TurnsSo (at self) (at b) (at c) result }
    {
        if self.all_near(b, c) {
            self.near_turn(b, c)
        } else {
            self.far_turn(b, c)
        }
    }

    // (bx - ax) * (cy - ay) against (by - ay) * (cx - ax).
    fn far_turn(self, b: Corner, c: Corner) -> Turn
        ensures { TurnsSo (at self) (at b) (at c) result }
    {
        let left = Area::spanned(self.x, b.x, self.y, c.y);
        let right = Area::spanned(self.y, b.y, self.x, c.x);
        Turn::from(left.compare(right))
    }

    // The same where no area leaves 64 bits.
    pub(crate) fn near_turn(self, b: Corner, c: Corner) -> Turn
        requires { all_within 2147483648 (at self) (at b) (at c) ≡ true }
        ensures { TurnsSo (at self) (at b) (at c) result }
    {
        let left = small_area(self.x, b.x, self.y, c.y);
        let right = small_area(self.y, b.y, self.x, c.x);
        leaning(left, right)
    }

    // Whether all numbers of the three are small enough for that: none has a bit that is too high.
    pub(crate) fn all_near(self, b: Corner, c: Corner) -> bool
        ensures { result ≡ all_within 2147483648 (at self) (at b) (at c) }
    {
        (self.x | self.y | b.x | b.y | c.x | c.y) < NEAR_LIMIT
    }
}
