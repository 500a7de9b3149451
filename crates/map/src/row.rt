// Rows of corners, as they are handed on.
ghost use Rattle.std.specs.Prelude.{◌≡◌, ◌%◌, ◌≤◌, length};

use ground::MOST_CORNERS;

// Two numbers for each of the most corners that a ground may have.
pub(crate) const LONGEST_ROW: usize = 2 * MOST_CORNERS;

// A lent row of whole corners, no more of them than a ground may have.
#[derive(Clone, Copy)]
pub(crate) struct Row<'a> {
    pub(crate) numbers: &'a [u64],
    ghost short: { length numbers.now ≤ 512 },
    ghost whole: { length numbers.now % 2 ≡ 0 },
}

impl<'a> Row<'a> {
    ghost use Rattle.map.specs.Asking.{handed};

    // A row as the machine takes it: none of it where it is odd or too long for a ground.
    pub(crate) fn handed(numbers: &'a [u64]) -> Row<'a>
        ensures { result.numbers.now ≡ handed numbers.now }
    {
        if numbers.len() <= LONGEST_ROW && numbers.len() % 2 == 0 {
            Row { numbers }
        } else {
            Row { numbers: &[] }
        }
    }
}
