// Grounds that are cut in two between two of their corners: the areas add up, the pieces touch, and each lies within the whole.
use crate::growth::Growth;
use crate::random::Field;
use crate::ring::Ring;
use figures::Random;
use ground::{is_ground, twice_area};
use relate::how_two_lie;
use std::alloc::{AllocError, Global};
use terms::Way;

const RINGS: u32 = 2000;

const TRIES: u32 = 24;

// How many cuts there were, and how often an area or a way was wrong.
#[derive(Clone, Copy, Default)]
pub struct Cuts {
    pub cuts: u64,
    pub areas: u64,
    pub ways: u64,
}

fn areas_add_up(whole: &[u64], one: &[u64], other: &[u64]) -> bool {
    match (twice_area(whole), twice_area(one), twice_area(other)) {
        (Some(all), Some(part), Some(rest)) => part.checked_add(rest) == Some(all),
        _ => false,
    }
}

fn ways_are_right(whole: &[u64], one: &[u64], other: &[u64]) -> bool {
    how_two_lie(one, other) == Some(Way::Touch)
        && how_two_lie(one, whole) == Some(Way::Within)
        && how_two_lie(whole, other) == Some(Way::Around)
}

impl Cuts {
    // A cut is one if both pieces are grounds: then the line between the corners lies inside.
    fn judge(&mut self, whole: &[u64], one: &[u64], other: &[u64]) {
        if is_ground(one).is_err() || is_ground(other).is_err() {
            return;
        }
        self.cuts = self.cuts.wrapping_add(1);
        if !areas_add_up(whole, one, other) {
            self.areas = self.areas.wrapping_add(1);
        }
        if !ways_are_right(whole, one, other) {
            self.ways = self.ways.wrapping_add(1);
        }
    }

    // Between any two corners of a ring. Ranges of places, since a stretch is named by the places of its ends.
    fn cut_all(&mut self, heap: Global, ring: &Ring) -> Result<(), AllocError> {
        let whole = ring.row(heap)?;
        for to in 0..ring.corners.len() {
            for from in 0..to {
                let one = ring.stretch(heap, from, to)?.row(heap)?;
                let other = ring.stretch(heap, to, from)?.row(heap)?;
                self.judge(&whole, &one, &other);
            }
        }
        Ok(())
    }

    pub(crate) fn of_random_rings(heap: Global, seed: u64) -> Result<Self, AllocError> {
        let mut random = Random::new(seed);
        let mut cuts = Cuts::default();
        for _ in 0..RINGS {
            let field = Field::square(random.below(4).wrapping_add(5));
            let growth = Growth {
                tries: TRIES,
                field,
            };
            let ring = growth.ring(heap, &mut random)?;
            if ring.is_ground(heap)? {
                cuts.cut_all(heap, &ring)?;
            }
        }
        Ok(cuts)
    }
}
