// How three corners turn: from the first over the second to the third.
ghost use Rattle.std.specs.Prelude.{◌≡◌};
ghost use Rattle.plane.specs.Areas.{turn_to_larger};

use std::cmp::Ordering;

#[derive(Clone, Copy, PartialEq, Eq, Debug)]
pub enum Turn {
    Left,
    Right,
    Straight,
}

// The turn to the side of the larger of two areas, the one to the left and the one to the right.
impl From<Ordering> for Turn {
    ghost from_gives = { λ left t. t ≡ turn_to_larger left };

    fn from(left: Ordering) -> Turn {
        match left {
            Ordering::Less => Turn::Right,
            Ordering::Equal => Turn::Straight,
            Ordering::Greater => Turn::Left,
        }
    }
}
