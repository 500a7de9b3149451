// What is so of two grounds. Each theorem is a function's contract: the checker has its proof, and to call the function does nothing.
ghost use Rattle.ground.specs.Statements.{TurnedRound, OneWay, CornersTell, CrossingOver};
ghost use Rattle.relate.specs.Examples.{WorkedWaysOf};
ghost use Rattle.relate.specs.Statements.{WayTells, WayFoundTells, MeetInPoints, ProperlyWithin, TouchInBorders};

// From the other side two grounds lie in the same way, or in the way turned round.
pub fn turned_round()
    ensures { TurnedRound }
{}

// The way that the samples tell is the way that all points tell.
pub fn way_tells()
    ensures { WayTells }
{}

// The way as it is found, by the sides of the edges, is the way that all points tell.
pub fn way_found_tells()
    ensures { WayFoundTells }
{}

// Two grounds lie to each other in one way, and only one.
pub fn one_way()
    ensures { OneWay }
{}

// Where no edges meet, a corner of each ground tells where all of it is.
pub fn corners_tell()
    ensures { CornersTell }
{}

// Where two edges cross, the grounds lie over each other.
pub fn crossing_over()
    ensures { CrossingOver }
{}

// Two edges meet exactly if they have a point in common.
pub fn meet_in_points()
    ensures { MeetInPoints }
{}

// What is within another ground, and is not all of it, is properly within.
pub fn properly_within()
    ensures { ProperlyWithin }
{}

// Grounds that touch have only points of both borders in common.
pub fn touch_in_borders()
    ensures { TouchInBorders }
{}

// What was worked out of how grounds lie by hand is what the samples say.
pub fn worked_ways_hold()
    ensures { WorkedWaysOf }
{}
