// What no contract can say: how two grounds lie, told by the proved way and by one with other code that looks at points only; and grounds that are cut in two.
#![tactic(auto)]

mod asking;
mod bordering;
mod built;
mod cells;
mod cuts;
mod fault;
mod fraction;
mod growth;
mod motion;
mod pair;
mod random;
mod reshaped;
mod ring;
mod seen;
mod segment;
mod spot;
mod tables;
mod tally;

use asking::{Asked, Wrong};
use cuts::Cuts;
use tally::Tally;

// Asks all kinds, each from a seed of its own, and writes a line for each.
fn ask_all(rt: &HostRuntime) -> anyhow::Result<Wrong> {
    let mut asked = Asked::default();
    Tally::show_head(rt)?;
    asked.ask(rt, 1, "random rings", bordering::random)?;
    asked.ask(rt, 2, "an edge shared", bordering::shared_edge)?;
    asked.ask(rt, 3, "a part of an edge", bordering::part_of_an_edge)?;
    asked.ask(rt, 4, "a corner on an edge", bordering::corner_on_edge)?;
    asked.ask(rt, 5, "a corner on a corner", bordering::corner_on_corner)?;
    asked.ask(
        rt,
        6,
        "corners on crossings",
        bordering::corners_on_crossings,
    )?;
    asked.ask(rt, 7, "small beside large", bordering::nested)?;
    asked.ask(rt, 8, "in a notch", built::in_a_notch)?;
    asked.ask(rt, 9, "one ring twice", bordering::same_ring)?;
    asked.ask(rt, 10, "combs interleaved", built::combs)?;
    asked.ask(rt, 11, "spirals", built::spirals)?;
    asked.ask(rt, 12, "pinwheels", built::pinwheels)?;
    asked.ask(rt, 13, "bars across", built::bars)?;
    asked.ask(rt, 14, "a slab cut in two", built::cut_slab)?;
    asked.ask(rt, 15, "banks of a skew line", bordering::skew_banks)?;
    let Asked { all, wrong } = asked;
    all.show(rt, "all")?;
    Ok(wrong)
}

fn tell(rt: &HostRuntime, wrong: Wrong) -> anyhow::Result<()> {
    let Wrong {
        differ,
        other_side,
        stretched,
        too_large,
    } = wrong;
    println!(rt; "by points: {differ} differ")?;
    println!(rt; "from the other side: {other_side} differ")?;
    println!(rt; "stretched over the map: {stretched} differ")?;
    println!(rt; "numbers that do not fit: {too_large}")?;
    Ok(())
}

fn cut_all(rt: &HostRuntime) -> anyhow::Result<()> {
    let Cuts { cuts, areas, ways } = Cuts::of_random_rings(rt.alloc(), 100)?;
    println!(rt; "grounds cut in two: {cuts}")?;
    println!(rt; "areas that do not add up: {areas}")?;
    println!(rt; "ways that are wrong: {ways}")?;
    Ok(())
}

fn run(rt: &HostRuntime) -> anyhow::Result<()> {
    tell(rt, ask_all(rt)?)?;
    cut_all(rt)
}

fn main(rt: HostRuntime) -> anyhow::Result<()> {
    run(&rt)
}
