// Lines of an input, to its end, each answered before the next is read.
use crate::help::HELP;
use crate::outcome::Outcome;
use crate::replying::reply_to;
use map::Machine;
use phrase::lines;
use std::alloc::Global;
use std::io::{BufRead, BufReader, Write};

// Answers each line before it reads the next, till there are no more, or one says to quit.
fn answer_lines<R: BufRead + Drop, W: Write>(
    heap: Global,
    machine: &mut Machine,
    input: R,
    out: &mut W,
) -> anyhow::Result<()> {
    for line in lines(heap, input) {
        match reply_to(heap, machine, line?.as_slice())? {
            Outcome::Text(text) => out.write_all(text.as_slice())?,
            Outcome::Help => out.write_all(HELP)?,
            Outcome::Silence => {}
            Outcome::Quit => break,
        }
    }
    Ok(())
}

// Answers the lines of standard input.
pub fn converse(rt: &HostRuntime, machine: &mut Machine) -> anyhow::Result<()> {
    let heap = rt.alloc();
    let input = BufReader::new(heap, rt.stdin())?;
    let mut out = rt.stdout();
    answer_lines(heap, machine, input, &mut out)
}
