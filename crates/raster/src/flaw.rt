// Windows that can be drawn.
ghost use Rattle.std.specs.Prelude.{◌≡◌, Some};
ghost use Rattle.raster.specs.Drawable.{checked, flaw_words};

use crate::window::Window;
use std::fmt;

// A window may have so many columns, and so many rows.
const MOST_SQUARES: u32 = 256;

// Why a window cannot be drawn.
#[derive(Clone, Copy, PartialEq, Eq, Debug)]
pub enum Flaw {
    // Squares of no size.
    NoStep,
    // No column or no row.
    NoSquares,
    // More than 256 columns or rows.
    TooManySquares,
    // The middle of some square has a coordinate of 2^39 ells or more.
    TooFar,
}

impl fmt::Display for Flaw {
    ghost output = { λ flaw. Some (flaw_words flaw) };

    fn fmt<W: fmt::Write>(&self, f: &mut fmt::Formatter<W>) -> fmt::Result {
        f.write_str(match self {
            Flaw::NoStep => "the step is 0: a square is 1 ell wide at least",
            Flaw::NoSquares => "a picture has 1 column and 1 row at least",
            Flaw::TooManySquares => "a picture has 256 columns and 256 rows at most",
            Flaw::TooFar => "the window reaches too far out: its squares lie below 2^39 ells",
        })
    }
}

impl std::error::Error for Flaw {}

impl Window {
    // The window itself, if the machine can be asked for the middle of each of its squares; else the first flaw in the order above.
    pub fn checked(self) -> Result<Window, Flaw>
        ensures { result ≡ checked self }
    {
        if self.step == 0 {
            return Err(Flaw::NoStep);
        }
        if self.columns == 0 || self.rows == 0 {
            return Err(Flaw::NoSquares);
        }
        if self.columns > MOST_SQUARES || self.rows > MOST_SQUARES {
            return Err(Flaw::TooManySquares);
        }
        // No other square lies farther out than the one in the north-east.
        if self.middle(self.columns - 1, 0).is_none() {
            return Err(Flaw::TooFar);
        }
        Ok(self)
    }
}
