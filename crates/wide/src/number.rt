// A number below 2^128.
ghost use Rattle.std.specs.Prelude.{◌≡◌, ◌+◌, ◌*◌, ◌^◌, ◌<◌, ◌≤◌, MatchOption, ◌==◌};
ghost use Rattle.std.specs.Ordering.{MatchOrdering};
ghost use Rattle.wide.specs.Value.{value};

use std::cmp::Ordering;

#[cfg(test)]
mod tests;

// A whole number in two words: `high` times 2^64, and `low`. Every pair of words is one, and each number has one pair: so the order of the fields is that of the
// numbers.
#[derive(Clone, Copy, PartialEq, Eq, PartialOrd, Ord, Debug)]
pub struct Wide {
    high: u64,
    low: u64,
}

impl Wide {
    // The product of two words, which always fits.
    pub fn product(a: u64, b: u64) -> Wide
        ensures { value result ≡ a * b }
    {
        let all = a as u128 * b as u128;
        Wide {
            high: (all >> 64) as u64,
            low: (all % 18446744073709551616) as u64,
        }
    }

    // The sum; nothing if it does not fit.
    pub fn sum(self, other: Wide) -> Option<Wide>
        ensures { MatchOption result (2 ^ 128 ≤ value self + value other) (λ s. value s ≡ value self + value other) }
    {
        let (low, carried) = self.low.overflowing_add(other.low);
        let (high, over) = self.high.overflowing_add(other.high);
        if over {
            return None;
        }
        if !carried {
            return Some(Wide { high, low });
        }
        let high = high.checked_add(1)?;
        Some(Wide { high, low })
    }

    // Which of the two is larger: what the derived order says of the words, said of the numbers.
    pub fn compare(self, other: Wide) -> Ordering
        ensures { MatchOrdering result (value self < value other) (value self ≡ value other) (value other < value self) }
    {
        self.cmp(&other)
    }

    // Whether both are the same number, likewise.
    pub fn equals(self, other: Wide) -> bool
        ensures { result ≡ (value self == value other) }
    {
        self == other
    }
}

// A word as it is.
impl From<u64> for Wide {
    ghost from_gives = { λ n w. value w ≡ n };

    fn from(n: u64) -> Wide {
        Wide { high: 0, low: n }
    }
}
