// A command as text, as it can be read back.
ghost use Rattle.std.specs.Prelude.{◌≡◌, Some, IfOk, string_bytes};
ghost use Rattle.std.specs.Fmt.{DisplaysOnOk};
ghost use Rattle.phrase.specs.Commands.{said};
ghost use Rattle.phrase.specs.Writing.{coordinate_text, row_text, written};

use crate::command::Command;
use std::alloc::{AllocError, Global};
use std::fmt;
use terms::Point;

// Coordinate `x`, the `i`-th of its row; a comma stands between two corners.
// By its index and not corner by corner: a row may be odd, and two loops in each other are no plainer.
fn write_coordinate<W: fmt::Write>(i: usize, x: u64, f: &mut fmt::Formatter<W>) -> fmt::Result
    ensures { DisplaysOnOk W.write_str_gives f.old result (Some (coordinate_text i x)) f.new }
{
    if i > 0 && i % 2 == 0 {
        return write!(f, ", {x}");
    }
    write!(f, " {x}")
}

// The coordinates of a row.
fn write_row<W: fmt::Write>(row: &[u64], f: &mut fmt::Formatter<W>) -> fmt::Result
    ensures { DisplaysOnOk W.write_str_gives f.old result (Some (row_text 0 row.now)) f.new }
{
    for (i, x) in row.iter().enumerate() {
        write_coordinate(i, *x, f)?;
    }
    Ok(())
}

// The usual form of a command.
impl fmt::Display for Command {
    ghost output = { λ command. Some (written (said command)) };

    fn fmt<W: fmt::Write>(&self, f: &mut fmt::Formatter<W>) -> fmt::Result {
        match self {
            Command::Put { number, row } => {
                write!(f, "put {number}")?;
                write_row(row.as_slice(), f)
            }
            Command::Drop { number } => write!(f, "drop {number}"),
            Command::AtPoint(Point { a, b, w }) => write!(f, "at point {a} {b} {w}"),
            Command::HowLie { first, second } => write!(f, "how lie {first}, {second}"),
            Command::AllThatLie { number } => write!(f, "all that lie on {number}"),
            Command::AreaOf { number } => write!(f, "area of {number}"),
            Command::Help => f.write_str("help"),
            Command::Quit => f.write_str("quit"),
            Command::Nothing => Ok(()),
        }
    }
}

// The usual form of a command, for those who want it as a text.
pub fn write_command(heap: Global, command: &Command) -> Result<String, AllocError>
    ensures { IfOk result (λ s. string_bytes s ≡ written (said command.now)) }
{
    format!(in heap; "{command}")
}
