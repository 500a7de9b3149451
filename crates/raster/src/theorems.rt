// What is so of all windows; the check asks for the proof of each.
ghost use Rattle.raster.specs.Statements.{EverySquareIsAsked, FittedIsDrawn};

// The machine can be asked for the middle of each square of a window that is drawn.
pub fn every_square_is_asked()
    ensures { EverySquareIsAsked }
{}

// The window that is fitted to a box of grounds can be drawn.
pub fn fitted_is_drawn()
    ensures { FittedIsDrawn }
{}
