// What no contract can say: grounds and points by two ways, the proved one and one with other code that looks north and counts how the ring winds; and the machine at its limits.
#![tactic(auto)]

mod limits;
mod memory;
mod ring;
mod tally;
mod winding;

use figures::Random;
use ground::{has_point, is_ground};
use limits::{full_of_corners, full_of_grounds, garbage};
use ring::Ring;
use std::alloc::{AllocError, Global};
use tally::Tally;
use terms::Point;

fn ask(ring: &Ring, point: Point, tally: &mut Tally) {
    tally.point(has_point(&ring.row, point), winding::has(&ring.row, point));
}

// Every point of the grid with the denominators 1 to `finest`.
fn ask_all(ring: &Ring, grid: u64, finest: u64, tally: &mut Tally) {
    for w in 1..=finest {
        let end = grid.wrapping_mul(w);
        for a in 0..=end {
            for b in 0..=end {
                ask(ring, Point { a, b, w }, tally);
            }
        }
    }
}

fn ask_if_ground(ring: &Ring, grid: u64, finest: u64, tally: &mut Tally) {
    let fine = is_ground(&ring.row).is_ok();
    tally.row(fine);
    if fine {
        ask_all(ring, grid, finest, tally);
    }
}

// Random rows of a few corners each: those that are grounds are asked.
fn scattered(heap: Global, seed: u64, tries: u32) -> Result<Tally, AllocError> {
    let mut tally = Tally::default();
    let mut random = Random::new(seed);
    for _ in 0..tries {
        let count = random.below(6).wrapping_add(3);
        let ring = Ring::scattered(heap, &mut random, count, 6)?;
        ask_if_ground(&ring, 6, 2, &mut tally);
    }
    Ok(tally)
}

fn built(heap: Global) -> Result<Tally, AllocError> {
    let mut tally = Tally::default();
    for teeth in 1..7 {
        ask_if_ground(&Ring::comb(heap, teeth, 4)?, 13, 3, &mut tally);
    }
    for first in 0..16 {
        ask_if_ground(&Ring::spiral(heap, first, 1)?, 8, 2, &mut tally);
    }
    for stretch in 1..4 {
        ask_if_ground(&Ring::plank(heap, stretch)?, 8, 3, &mut tally);
    }
    Ok(tally)
}

// How long an ell of the largest spiral is.
const STRETCH: u64 = 149796;

// A point near the middle of a random pair of the largest spiral's corners.
fn amid_corners(random: &mut Random) -> Point {
    let w = u64::from(random.below(999)).wrapping_add(1);
    let a = u64::from(random.below(1048573)).wrapping_mul(w);
    let b = u64::from(random.below(8))
        .wrapping_mul(STRETCH)
        .wrapping_mul(w)
        .wrapping_add(u64::from(random.below(3)));
    Point {
        a: a % 0x4000_0000,
        b: b % 0x4000_0000,
        w,
    }
}

// A spiral as large as the map allows.
fn stretched(heap: Global, seed: u64) -> Result<Tally, AllocError> {
    let mut tally = Tally::default();
    let mut random = Random::new(seed);
    let spiral = Ring::spiral(heap, 5, STRETCH as u32)?;
    tally.row(is_ground(&spiral.row).is_ok());
    for _ in 0..20000 {
        ask(&spiral, amid_corners(&mut random), &mut tally);
    }
    Ok(tally)
}

fn main(rt: HostRuntime) -> anyhow::Result<()> {
    let heap = rt.alloc();
    println!(rt; "random rings: {}", scattered(heap, 1, 6000)?)?;
    println!(rt; "combs, spirals and planks: {}", built(heap)?)?;
    println!(rt; "a large spiral: {}", stretched(heap, 2)?)?;
    println!(rt; "a memory full of grounds: {}", full_of_grounds(heap)?)?;
    println!(rt; "a memory full of corners: {}", full_of_corners(heap)?)?;
    println!(rt; "memories of garbage: {}", garbage(heap, 3)?)?;
    Ok(())
}
