// Reading the file of a register, line by line.
use crate::book::{Book, NotTaken};
use crate::options::{Mode, Options};
use phrase::lines;
use std::fs::File;
use std::io;
use std::io::BufReader;

// After so many lines it is told how far it is.
const LINES_TOLD: u64 = 5000;

// Where a line of text goes is asked here and below of the mode: both streams are the runtime's, and a writer handed on would say no more.
// Tells what is wrong with a line: on standard output, which under --wkt has the grounds alone.
fn complain(rt: &HostRuntime, mode: Mode, line: u64, why: &NotTaken) -> io::Result<()> {
    if mode == Mode::WellKnownText {
        return eprintln!(rt; "line {line}: {why}");
    }
    println!(rt; "line {line}: {why}")
}

fn sum_up(rt: &HostRuntime, mode: Mode, book: &Book) -> io::Result<()> {
    let grounds = book.grounds.len();
    let corners = book.corners;
    let refused = book.refused;
    if mode == Mode::Check {
        return println!(rt; "{grounds} grounds, {corners} corners, {refused} refused");
    }
    eprintln!(rt; "{grounds} grounds, {corners} corners, {refused} refused")
}

// Takes every line of the file, tells what is wrong, and sums up.
pub(crate) fn load(rt: &HostRuntime, options: &Options, book: &mut Book) -> anyhow::Result<()> {
    let heap = rt.alloc();
    let input = BufReader::new(heap, File::open(rt, options.file.as_str())?)?;
    for (count, line) in (1u64..).zip(lines(heap, input)) {
        match book.take(heap, line?.as_slice()) {
            Ok(()) => {}
            Err(NotTaken::OutOfMemory(none)) => return Err(none.into()),
            Err(why) => {
                book.refused = book.refused.saturating_add(1);
                complain(rt, options.mode, count, &why)?;
            }
        }
        if count % LINES_TOLD == 0 {
            eprintln!(rt; "register: {count} lines read")?;
        }
    }
    sum_up(rt, options.mode, book)?;
    Ok(())
}
