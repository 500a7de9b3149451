// The ring of a polygon in well-known text: `((120 400, 180 420, 150 470, 120 400))`.
ghost use Rattle.std.specs.Prelude.{◌≡◌, ◌-◌, true, false, length, MatchOption};
ghost use Rattle.std.specs.List.{between};
ghost use Rattle.entries.specs.Rings.{bracketed, evenly, closes, ring_row};
ghost use Rattle.entries.specs.Reading.{Reads};

use crate::fault::{Fault, ReadError};
use crate::mark::Mark;
use crate::row::read_numbers;
use std::alloc::Global;

// The marks between two brackets that open and two that close, if they stand so.
fn in_brackets(marks: &[Mark]) -> Option<&[Mark]>
    ensures { MatchOption result (bracketed marks.now ≡ false) (λ inner. (bracketed marks.now ≡ true) × (inner.now ≡ between 2 (length marks.now - 2) marks.now)) }
{
    match marks {
        [Mark::Open, Mark::Open, inner @ .., Mark::Close, Mark::Close] => Some(inner),
        _ => None,
    }
}

// Whether the commas stand between corners: two marks before each, and two behind the last.
fn is_even(marks: &[Mark]) -> bool
    ensures { result ≡ evenly 0 marks.now }
{
    marks
        .split(|mark| *mark == Mark::Comma)
        .all(|corner| corner.len() == 2)
}

// Whether there are two corners or more, the last of them the first again.
fn is_closed(row: &[u64]) -> bool
    ensures { result ≡ closes row.now }
{
    match row {
        [x, y, .., last_x, last_y] => x == last_x && y == last_y,
        _ => false,
    }
}

// The corners of the ring; the last is left out.
pub(crate) fn read_ring(heap: Global, marks: &[Mark]) -> Result<Vec<u64>, ReadError>
    ensures { Reads result (ring_row marks.now) (λ v. v.items) }
{
    let inner = in_brackets(marks).ok_or(Fault::NotAPolygon)?;
    let mut row = read_numbers(heap, inner)?;
    if !is_even(inner) {
        return Err(ReadError::Wrong(Fault::NotAPolygon));
    }
    if !is_closed(row.as_slice()) {
        return Err(ReadError::Wrong(Fault::NotClosed));
    }
    row.truncate(row.len() - 2);
    Ok(row)
}
