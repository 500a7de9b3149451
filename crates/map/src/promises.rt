// What the machine promises, over any list of commands. Each promise is a function's contract: the checker has its proof, and to call the function does nothing.
ghost use Rattle.map.specs.House.{core};
ghost use Rattle.map.specs.Promise.{Steady, Whole};
ghost use Rattle.map.specs.Asking.{LongRows};
ghost use Rattle.map.specs.Machine.{own};
ghost use Rattle.map.specs.History.{ShownRising, PutStays, DroppedGone, OnlyPut, RefusedNothing};

// Whatever stands in the memory and whatever is said, the memory stays as long as it is, and its numbers stay numbers of 64 bits.
pub fn own_is_steady()
    ensures { Steady own }
{}

// What is told of put, drop and at point is what is so, after any list of commands.
pub fn core_is_whole()
    ensures { Whole core own }
{}

// At point shows rising numbers, in a row each.
pub fn shown_numbers_rise()
    ensures { ShownRising }
{}

// A ground that was put is told of exactly the points that it has, until it is dropped, whatever else is said.
pub fn put_ground_stays()
    ensures { PutStays }
{}

// A number that was dropped is told of no point, until a ground is put under it again.
pub fn dropped_number_is_gone()
    ensures { DroppedGone }
{}

// A number under which no ground was put is told of no point.
pub fn only_put_numbers_are_told()
    ensures { OnlyPut }
{}

// What is refused leaves every later answer as it would be without it.
pub fn refused_leaves_no_trace()
    ensures { RefusedNothing }
{}

// A row of more than 256 corners is refused with the same number as a row of none, which is what the machine is handed of it.
pub fn long_rows_are_refused_alike()
    ensures { LongRows }
{}
