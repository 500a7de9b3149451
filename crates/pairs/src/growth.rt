// Random rings: an edge, a third corner, and then more and more corners as long as they are grounds.
use crate::random::{Draw, Field};
use crate::ring::Ring;
use crate::segment::Segment;
use crate::spot::Spot;
use figures::Random;
use std::alloc::{AllocError, Global};

impl Ring {
    fn with_corner(&self, heap: Global, place: usize, corner: Spot) -> Result<Self, AllocError> {
        let mut ring = Ring::of(heap, &self.corners)?;
        if place <= ring.corners.len() {
            ring.corners.insert(place, corner)?;
        }
        Ok(ring)
    }
}

// How a ring grows: how often a corner is tried to be added, and where.
#[derive(Clone, Copy)]
pub struct Growth {
    pub tries: u32,
    pub field: Field,
}

impl Growth {
    // More corners of the field, each put between two where a ground is left. The first edge stays.
    fn grown(self, heap: Global, random: &mut Random, ring: Ring) -> Result<Ring, AllocError> {
        let mut ring = ring;
        for _ in 0..self.tries {
            let place = random
                .place(ring.corners.len().wrapping_sub(1))
                .wrapping_add(2);
            let larger = ring.with_corner(heap, place, random.spot(self.field))?;
            if larger.is_ground(heap)? {
                ring = larger;
            }
        }
        Ok(ring)
    }

    // A random ring that begins with an edge. Where no corner of the field serves, it has the two corners only.
    pub(crate) fn on_edge(
        self,
        heap: Global,
        random: &mut Random,
        edge: Segment,
    ) -> Result<Ring, AllocError> {
        let Segment { from, to } = edge;
        let mut ring = Ring::of(heap, &[from, to])?;
        for _ in 0..8u32 {
            let triangle = Ring::of(heap, &[from, to, random.spot(self.field)])?;
            if triangle.is_ground(heap)? {
                ring = triangle;
                break;
            }
        }
        self.grown(heap, random, ring)
    }

    // A random ring with corners of the field.
    pub(crate) fn ring(self, heap: Global, random: &mut Random) -> Result<Ring, AllocError> {
        let from = random.spot(self.field);
        let to = random.spot(self.field);
        self.on_edge(heap, random, Segment { from, to })
    }
}
