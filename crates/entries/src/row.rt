// A row of corners: numbers, with commas anywhere between them.
ghost use Rattle.std.specs.Prelude.{◌≡◌};
ghost use Rattle.entries.specs.Rows.{numbers, plain_row};
ghost use Rattle.entries.specs.Reading.{Reads};

use crate::fault::{Fault, ReadError};
use crate::mark::Mark;
use std::alloc::Global;

// All numbers; commas are passed over.
pub(crate) fn read_numbers(heap: Global, marks: &[Mark]) -> Result<Vec<u64>, ReadError>
    ensures { Reads result (numbers marks.now) (λ v. v.items) }
{
    let mut row = Vec::new(heap);
    for mark in marks {
        match *mark {
            Mark::Number(n) => row.push(n)?,
            Mark::Comma => {}
            Mark::Open | Mark::Close => return Err(ReadError::Wrong(Fault::Brackets)),
            Mark::Colon | Mark::Polygon => return Err(ReadError::Wrong(Fault::NotANumber)),
        }
    }
    Ok(row)
}

pub(crate) fn read_row(heap: Global, marks: &[Mark]) -> Result<Vec<u64>, ReadError>
    ensures { Reads result (plain_row marks.now) (λ v. v.items) }
{
    let row = read_numbers(heap, marks)?;
    if row.len() % 2 != 0 {
        return Err(ReadError::Wrong(Fault::OddCount));
    }
    Ok(row)
}
