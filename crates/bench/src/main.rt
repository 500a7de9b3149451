// How quick the machine is over the made-up register: what was counted goes to standard output, and the time that it took to standard error.
// With a number as its argument it asks so many points of each kind, else a few.
#![tactic(auto)]

mod measure;
mod points;

use anyhow::Result;
use atlas::{COUNT, entry};
use map::{Machine, Request};
use measure::{Counted, clocked};
use points::{outside, shared, spread};
use std::alloc::Global;
use std::env;
use terms::Point;

// Puts every ground of the register whose place the divisor divides.
fn put_all(heap: Global, machine: &mut Machine, divisor: u32) -> Result<Counted> {
    let mut shown = Vec::new(heap);
    let mut count: u64 = 0;
    for ground in (0..COUNT)
        .step_by(divisor.max(1) as usize)
        .filter_map(|place| entry(place))
    {
        let row = ground.row;
        let request = Request::Put {
            number: ground.number,
            row: &row,
        };
        machine.ask(request, &mut shown)?;
        count = count.wrapping_add(1);
    }
    Ok(Counted {
        asked: count,
        found: count,
    })
}

// Asks so many points, and counts the grounds that are told.
fn ask_all<P: Fn(u32) -> Point>(
    heap: Global,
    machine: &mut Machine,
    count: u32,
    point: P,
) -> Result<Counted>
    requires { P.IsAlwaysCallable point }
{
    let mut shown = Vec::new(heap);
    let mut told: u64 = 0;
    for turn in 0..count {
        shown.clear();
        machine.ask(Request::AtPoint(point(turn)), &mut shown)?;
        told = told.wrapping_add(shown.len() as u64);
    }
    Ok(Counted {
        asked: u64::from(count),
        found: told,
    })
}

fn over_a_share(rt: &HostRuntime, divisor: u32, count: u32) -> Result<()> {
    let heap = rt.alloc();
    let mut machine = Machine::new(heap)?;
    clocked(rt, "grounds put", || put_all(heap, &mut machine, divisor))?;
    clocked(rt, "points spread over the map", || {
        ask_all(heap, &mut machine, count, spread)
    })?;
    clocked(rt, "points on shared edges", || {
        ask_all(heap, &mut machine, count, shared)
    })?;
    clocked(rt, "points far outside", || {
        ask_all(heap, &mut machine, count, outside)
    })
}

fn main(rt: HostRuntime) -> Result<()> {
    let count = match env::args(&rt)?.nth(1) {
        Some(word) => word.as_str().parse::<u32>()?,
        None => 200,
    };
    for divisor in [4, 2, 1] {
        over_a_share(&rt, divisor, count)?;
    }
    Ok(())
}
