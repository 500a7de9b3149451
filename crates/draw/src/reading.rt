// The register, line by line. What is refused is told on standard error, and the rest is drawn. `register` reads one too, and tells what is wrong elsewhere and
// otherwise: what the two have in common is what a line means, which is `entries`.
use crate::chart::Chart;
use crate::problem::Problem;
use entries::{Ground, ReadError, read_entry, refusal_text};
use std::alloc::AllocError;
use std::io::{BufRead, BufReader};
use std::{fs, io};

// After so many lines it says how far it is.
const LINES_BETWEEN: u64 = 10000;

fn put(
    rt: &HostRuntime,
    chart: &mut Chart,
    place: u64,
    number: u64,
    row: &[u64],
) -> Result<(), Problem> {
    if let Err(error) = chart.put(number, row) {
        let why = refusal_text(rt.alloc(), u64::from(error.refusal()?), number, row)?;
        eprintln!(rt; "draw: line {place}: ground {number}: {why}")?;
    }
    Ok(())
}

fn take_line(rt: &HostRuntime, chart: &mut Chart, place: u64, line: &[u8]) -> Result<(), Problem> {
    if place % LINES_BETWEEN == 0 {
        eprintln!(rt; "draw: {place} lines read")?;
    }
    match read_entry(rt.alloc(), line) {
        Ok(None) => Ok(()),
        Ok(Some(Ground { number, row })) => put(rt, chart, place, number, row.as_slice()),
        Err(ReadError::Wrong(why)) => Ok(eprintln!(rt;
            "draw: line {place}: not understood: {why}"
        )?),
        Err(ReadError::OutOfMemory) => Err(AllocError.into()),
    }
}

fn unreadable(rt: &HostRuntime, file: &str, error: io::Error) -> Problem {
    match String::from_str(rt.alloc(), file) {
        Ok(name) => Problem::Unreadable(name, error),
        Err(none) => none.into(),
    }
}

pub(crate) fn read_register(
    rt: &HostRuntime,
    file: &str,
    chart: &mut Chart,
) -> Result<(), Problem> {
    let opened = fs::open(rt, file).map_err(|error| unreadable(rt, file, error))?;
    let lines = BufReader::new(rt.alloc(), opened)?.split(rt.alloc(), b'\n');
    for (place, line) in (1..u64::MAX).zip(lines) {
        let line = line.map_err(|error| unreadable(rt, file, error))?;
        take_line(rt, chart, place, line.as_slice())?;
    }
    Ok(())
}
