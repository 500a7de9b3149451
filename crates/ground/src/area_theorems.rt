// What is so of the areas of grounds, and of the side of its edges that a ground lies on. Each theorem is a function's contract: the checker has its proof, and to
// call the function does nothing.
ghost use Rattle.ground.specs.Statements.{AreaLess, CutAdds};
ghost use Rattle.ground.specs.Orientation.{AmidOdd, LeftHand};
ghost use Rattle.ground.specs.Areas.{AreaIsMeasure, CellsAreWhole, CommonMultiple, SameArea, PartsAdd};

// Cut along a line from corner to corner, areas add up.
pub fn cut_areas_add_up()
    ensures { CutAdds }
{}

// Amid an edge of a ground the parity says which way the edge goes.
pub fn parity_amid_edges()
    ensures { AmidOdd }
{}

// What is just left of an edge of a ground is inside, what is just right of it outside.
pub fn ground_is_on_the_left()
    ensures { LeftHand }
{}

// The area of a ground is the sum of the lengths of its cross-sections, counted in cells.
pub fn area_is_measure()
    ensures { AreaIsMeasure }
{}

// The points of a cross-section within one cell are all inside, or none is.
pub fn cells_are_whole()
    ensures { CellsAreWhole }
{}

// Cells that measure a ground exist.
pub fn cells_exist()
    ensures { CommonMultiple }
{}

// What is within another ground has no more area.
pub fn within_has_no_more_area()
    ensures { AreaLess }
{}

// Grounds with the same points have the same area.
pub fn same_points_same_area()
    ensures { SameArea }
{}

// Two grounds that share no point inside, and make up a third, add up to its area.
pub fn parts_add_up()
    ensures { PartsAdd }
{}
