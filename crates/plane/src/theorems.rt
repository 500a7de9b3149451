// What is so of corners and edges. Each theorem is a function's contract: the checker has its proof, and to call the function does nothing.
ghost use Rattle.std.specs.Prelude.{◌≡◌};
ghost use Rattle.plane.specs.Code.{at};
ghost use Rattle.plane.specs.Corners.{same_corner};
ghost use Rattle.plane.specs.Parity.{CrossingParity};
ghost use Rattle.plane.specs.Symmetry.{TurnCycles, TurnReverses, MeetsBothWays};

use crate::corner::Corner;

// Corners are equal exactly if both their numbers are.
pub fn equal_corners()
    ensures { (a b : _) → ⟦<Corner as PartialEq>⟧.eq a b ≡ same_corner (at a) (at b) }
{}

// Three corners turn the same way, whichever of them is the first.
pub fn turn_cycles()
    ensures { TurnCycles }
{}

// Gone backwards, three corners turn the other way.
pub fn turn_reverses()
    ensures { TurnReverses }
{}

// If an edge meets another, that one meets it.
pub fn meets_both_ways()
    ensures { MeetsBothWays }
{}

// Along a segment the parity of crossings changes with each edge that crosses the segment over.
pub fn crossing_parity()
    ensures { CrossingParity }
{}
