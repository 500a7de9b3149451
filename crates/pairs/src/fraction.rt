// Fractions, exactly.
use crate::fault::Fault;

pub(crate) fn product(a: i128, b: i128) -> Result<i128, Fault> {
    a.checked_mul(b).ok_or(Fault::TooLarge)
}

pub(crate) fn sum(a: i128, b: i128) -> Result<i128, Fault> {
    a.checked_add(b).ok_or(Fault::TooLarge)
}

pub(crate) fn difference(a: i128, b: i128) -> Result<i128, Fault> {
    a.checked_sub(b).ok_or(Fault::TooLarge)
}

// The bottom is above 0.
#[derive(Clone, Copy)]
pub struct Fraction {
    pub top: i128,
    pub bottom: i128,
}

impl Fraction {
    pub(crate) fn whole(number: i64) -> Self {
        Fraction {
            top: i128::from(number),
            bottom: 1,
        }
    }

    // For a bottom that is not 0.
    pub(crate) fn of(top: i128, bottom: i128) -> Result<Self, Fault> {
        if bottom < 0 {
            return Ok(Fraction {
                top: difference(0, top)?,
                bottom: difference(0, bottom)?,
            });
        }
        Ok(Fraction { top, bottom })
    }

    pub(crate) fn is_below(self, other: Fraction) -> Result<bool, Fault> {
        Ok(product(self.top, other.bottom)? < product(other.top, self.bottom)?)
    }

    pub(crate) fn middle(self, other: Fraction) -> Result<Self, Fault> {
        let top = sum(
            product(self.top, other.bottom)?,
            product(other.top, self.bottom)?,
        )?;
        let bottom = product(2, product(self.bottom, other.bottom)?)?;
        Ok(Fraction { top, bottom })
    }
}
