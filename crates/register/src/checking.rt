// What is told of a register as a whole: which grounds lie over each other, and how large all are together.
use crate::book::Book;
use dialogue::read_neighbours;
use map::{Machine, Request};
use phrase::Neighbour;
use std::alloc::{AllocError, Global};
use std::io;
use terms::Way;

// After so many grounds it is told how far it is.
const GROUNDS_TOLD: usize = 100;

// What the machine shows at a request; nothing if it refuses.
fn shown(
    heap: Global,
    machine: &mut Machine,
    request: Request<'_>,
) -> Result<Option<Vec<u64>>, AllocError> {
    let mut shown = Vec::new(heap);
    match machine.ask(request, &mut shown) {
        Ok(()) => Ok(Some(shown)),
        Err(error) => {
            let _why = error.refusal()?;
            Ok(None)
        }
    }
}

// The grounds that lie on one, if the machine tells.
fn neighbours_of(
    heap: Global,
    machine: &mut Machine,
    number: u64,
) -> Result<Option<Vec<Neighbour>>, AllocError> {
    let Some(shown) = shown(heap, machine, Request::AllThatLie { number })? else {
        return Ok(None);
    };
    read_neighbours(heap, shown.as_slice())
}

// Twice the area of a ground, if the machine tells.
fn area_of(heap: Global, machine: &mut Machine, number: u64) -> Result<Option<u64>, AllocError> {
    let shown = shown(heap, machine, Request::AreaOf { number })?;
    Ok(shown.and_then(|numbers| numbers.as_slice().first().copied()))
}

// Each pair is told once, of its lower number.
fn tell_overlaps(rt: &HostRuntime, number: u64, rows: &[Neighbour]) -> io::Result<()> {
    for row in rows {
        let other = row.other;
        if number < other && row.way == Way::Over {
            println!(rt; "grounds {number} and {other} lie over each other")?;
        }
    }
    Ok(())
}

// Nothing is told as long as the machine does not know how grounds lie.
fn check_overlaps(rt: &HostRuntime, book: &mut Book) -> anyhow::Result<()> {
    let count = book.grounds.len();
    for (done, ground) in (1usize..).zip(&book.grounds) {
        let Some(rows) = neighbours_of(rt.alloc(), &mut book.machine, ground.number)? else {
            return Ok(());
        };
        tell_overlaps(rt, ground.number, rows.as_slice())?;
        if done % GROUNDS_TOLD == 0 {
            eprintln!(rt; "register: {done} of {count} grounds compared")?;
        }
    }
    Ok(())
}

fn check_areas(rt: &HostRuntime, book: &mut Book) -> anyhow::Result<()> {
    let mut twice: u128 = 0;
    for ground in &book.grounds {
        let Some(area) = area_of(rt.alloc(), &mut book.machine, ground.number)? else {
            return Ok(());
        };
        twice = twice.saturating_add(u128::from(area));
    }
    println!(rt; "twice the area of all: {twice}")?;
    Ok(())
}

pub(crate) fn check(rt: &HostRuntime, book: &mut Book) -> anyhow::Result<()> {
    check_overlaps(rt, book)?;
    check_areas(rt, book)
}
