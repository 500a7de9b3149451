// How two grounds lie to each other.
ghost use Rattle.std.specs.Prelude.{◌≡◌};
ghost use Rattle.terms.specs.Ways.{way_number, NumbersWay};

#[derive(Clone, Copy, PartialEq, Eq, Debug)]
pub enum Way {
    // No point is of both.
    Apart,
    // Some points are of both, but none is inside both.
    Touch,
    // The first within the second.
    Within,
    // The second within the first.
    Around,
    Same,
    // Some point is inside both, and each has some that the other has not.
    Over,
}

// A number that is no way's.
#[derive(Clone, Copy, PartialEq, Eq, Debug)]
pub struct NoWay(pub u64);

// The number by which the way is told.
impl From<Way> for u64 {
    ghost from_gives = { λ way n. n ≡ way_number way };

    fn from(way: Way) -> u64 {
        way as u64
    }
}

// The way that has this number, if there is one.
impl TryFrom<u64> for Way {
    type Error = NoWay;

    ghost try_from_gives = { NumbersWay };

    fn try_from(number: u64) -> Result<Way, NoWay> {
        match number {
            0 => Ok(Way::Apart),
            1 => Ok(Way::Touch),
            2 => Ok(Way::Within),
            3 => Ok(Way::Around),
            4 => Ok(Way::Same),
            5 => Ok(Way::Over),
            _ => Err(NoWay(number)),
        }
    }
}
