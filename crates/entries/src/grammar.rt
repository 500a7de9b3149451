// Which entry the marks of a line are.
ghost use Rattle.std.specs.Prelude.{◌≡◌};
ghost use Rattle.entries.specs.Grammar.{entry_said, after_colon, row_of, entry_of};
ghost use Rattle.entries.specs.Reading.{Reads};

use crate::entry::Ground;
use crate::fault::{Fault, ReadError};
use crate::mark::Mark;
use crate::ring::read_ring;
use crate::row::read_row;
use std::alloc::Global;

// The marks behind a colon, if there is one.
fn after_colon(marks: &[Mark]) -> &[Mark]
    ensures { result.now ≡ after_colon marks.now }
{
    match marks {
        [Mark::Colon, rest @ ..] => rest,
        _ => marks,
    }
}

// The corners, as a polygon or else as a row.
fn read_corners(heap: Global, marks: &[Mark]) -> Result<Vec<u64>, ReadError>
    ensures { Reads result (row_of marks.now) (λ v. v.items) }
{
    match marks {
        [Mark::Polygon, ring @ ..] => read_ring(heap, ring),
        _ => read_row(heap, marks),
    }
}

// The entry that the marks are.
pub(crate) fn entry_of(heap: Global, marks: &[Mark]) -> Result<Option<Ground>, ReadError>
    ensures { Reads result (entry_of marks.now) entry_said }
{
    match marks {
        [] => Ok(None),
        [Mark::Number(number), rest @ ..] => {
            let row = read_corners(heap, after_colon(rest))?;
            Ok(Some(Ground {
                number: *number,
                row,
            }))
        }
        _ => Err(ReadError::Wrong(Fault::NoNumber)),
    }
}
