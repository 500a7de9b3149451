// Each line of standard input as it is read: the usual form of its command, or `?` where it is none. The gate runs it over a table of odd lines.
#![tactic(auto)]

use phrase::{NotUnderstood, lines, read_command};
use std::alloc::AllocError;
use std::io::BufReader;

fn tell(rt: &HostRuntime, line: &[u8]) -> anyhow::Result<()> {
    match read_command(rt.alloc(), line) {
        Ok(command) => println!(rt; "{command}")?,
        Err(NotUnderstood::Unreadable) => println!(rt; "?")?,
        Err(NotUnderstood::OutOfMemory) => return Err(AllocError.into()),
    }
    Ok(())
}

fn run(rt: &HostRuntime) -> anyhow::Result<()> {
    let heap = rt.alloc();
    for line in lines(heap, BufReader::new(heap, rt.stdin())?) {
        tell(rt, line?.as_slice())?;
    }
    Ok(())
}

fn main(rt: HostRuntime) -> anyhow::Result<()> {
    run(&rt)
}
