// A line as an entry.
ghost use Rattle.entries.specs.Grammar.{entry_said, meaning};
ghost use Rattle.entries.specs.Reading.{Reads};

use crate::cutting::read_marks;
use crate::entry::Ground;
use crate::fault::ReadError;
use crate::grammar::entry_of;
use std::alloc::Global;

// The ground that a line is; none, if it is empty, or has a comment only. The line comes without its newline.
pub fn read_entry(heap: Global, line: &[u8]) -> Result<Option<Ground>, ReadError>
    ensures { Reads result (meaning line.now) entry_said }
{
    let marks = read_marks(heap, line)?;
    entry_of(heap, marks.as_slice())
}
