// Areas with a sign.
ghost use Rattle.std.specs.Prelude.{◌≡◌, ◌+◌, ◌*◌, ◌<◌};
ghost use Rattle.plane.specs.Areas.{up, down, SmallSpan, above, below, Leans};
ghost use Rattle.std.specs.Ordering.{MatchOrdering};

use crate::turning::Turn;
use std::cmp::Ordering;
use wide::Wide;

// The product of two differences: its size, and whether it is added or taken away.
#[derive(Clone, Copy)]
pub enum Area {
    Plus(Wide),
    Minus(Wide),
}

impl Area {
    // The rectangle from a to b in the one direction and from c to d in the other: (b - a) * (d - c).
    pub(crate) fn spanned(a: u64, b: u64, c: u64, d: u64) -> Area
        ensures { up result + (a * d + b * c) ≡ down result + (a * c + b * d) }
    {
        let size = Wide::product(a.abs_diff(b), c.abs_diff(d));
        if (a <= b) == (c <= d) {
            Area::Plus(size)
        } else {
            Area::Minus(size)
        }
    }

    // Which of two areas is the larger, signs and all. No derived order is plainer: 0 stands under both signs, and of two areas below it the larger one is the smaller in size.
    pub(crate) fn compare(self, other: Area) -> Ordering
        ensures { MatchOrdering result (up self + down other < up other + down self) (up self + down other ≡ up other + down self) (up other + down self < up self + down other) }
    {
        let nothing = Wide::from(0_u64);
        match (self, other) {
            (Area::Plus(a), Area::Plus(b)) => a.compare(b),
            (Area::Minus(a), Area::Minus(b)) => b.compare(a),
            (Area::Plus(a), Area::Minus(b)) => a.compare(nothing).then(b.compare(nothing)),
            (Area::Minus(a), Area::Plus(b)) => nothing.compare(a).then(nothing.compare(b)),
        }
    }
}

// The same product where it is small: (b - a) * (d - c), with its sign.
pub(crate) fn small_area(a: u64, b: u64, c: u64, d: u64) -> i64
    requires { SmallSpan a b c d }
    ensures { above result + (a * d + b * c) ≡ below result + (a * c + b * d) }
{
    difference(a, b) * difference(c, d)
}

// b - a, with its sign.
fn difference(a: u64, b: u64) -> i64
    requires { (a < 9223372036854775808) × (b < 9223372036854775808) }
    ensures { above result + a ≡ below result + b }
{
    b as i64 - a as i64
}

// The turn with these areas to the left and to the right: to the side of the larger one.
pub fn leaning(left: i64, right: i64) -> Turn
    ensures { Leans (above left + below right) (above right + below left) result }
{
    Turn::from(left.cmp(&right))
}
