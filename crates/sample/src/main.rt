// Writes the made-up register, a line for each ground.
#![tactic(auto)]

use atlas::{COUNT, entry};
use std::io;

fn main(rt: HostRuntime) -> io::Result<()> {
    for ground in (0..COUNT).filter_map(|place| entry(place)) {
        let number = ground.number;
        let [ax, ay, bx, by, cx, cy, dx, dy] = ground.row;
        println!(rt; "{number}: {ax} {ay}, {bx} {by}, {cx} {cy}, {dx} {dy}")?;
    }
    Ok(())
}
