// What is so of every ground. Each theorem is a function's contract: the checker has its proof, and to call the function does nothing.
ghost use Rattle.ground.specs.Examples.{WorkedExamples};
ghost use Rattle.ground.specs.Statements.{WithinWithin, SamePoint, AnyBeginning, AnyWay, BoxHolds, SomeInside};

// What is within what is within another is within that.
pub fn within_within()
    ensures { WithinWithin }
{}

// A point is in the same grounds, whichever fraction it is written as.
pub fn same_point_same_answer()
    ensures { SamePoint }
{}

// Whether a point is inside does not depend on the corner that a ground begins with.
pub fn any_beginning_serves()
    ensures { AnyBeginning }
{}

// Whether a point is inside does not depend on whether the line from it goes to the east or to the north.
pub fn looking_north_agrees()
    ensures { AnyWay }
{}

// A ground lies between its lowest and highest, westmost and eastmost corners.
pub fn box_holds()
    ensures { BoxHolds }
{}

// Each ground has a point inside.
pub fn some_point_is_inside()
    ensures { SomeInside }
{}

// What was worked out of five grounds by hand is what the definitions say.
pub fn worked_examples_hold()
    ensures { WorkedExamples }
{}
