// Rings that are made of another by a change of some of its corners.
use crate::ring::Ring;
use crate::segment::Segment;
use crate::spot::Spot;
use figures::Random;
use std::alloc::{AllocError, Global};

impl Ring {
    // With more corners amid some of its edges, at half of their length.
    pub(crate) fn with_middles(
        &self,
        heap: Global,
        random: &mut Random,
    ) -> Result<Self, AllocError> {
        let mut corners = Vec::new(heap);
        for edge in Segment::all(heap, self)? {
            corners.push(edge.from)?;
            if random.one_in(3) {
                corners.push(edge.part(1, 2))?;
            }
        }
        Ok(Ring { corners })
    }

    // A ring with upright and level edges, each moved so many ells toward the inside. By places: each corner is moved by the edges on both of its sides.
    pub(crate) fn inset(&self, heap: Global, depth: i64) -> Result<Self, AllocError> {
        let mut corners = Vec::new(heap);
        for (place, corner) in self.corners.iter().enumerate() {
            let before = self.corner_before(place).way_to(*corner).sign();
            let after = corner.way_to(self.corner_after(place)).sign();
            let inward = before.turned_left().plus(after.turned_left());
            corners.push(corner.plus(inward.times(depth)))?;
        }
        Ok(Ring { corners })
    }

    // The spot lies on an edge: it is in line with the ends, and sees them in opposite directions. By places, which need no row of edges to be made; with code of its own,
    // since the slow way of looking may share nothing with how its pairs are made.
    fn borders_on(&self, spot: Spot) -> bool {
        (0..self.corners.len()).any(|place| {
            let edge = self.edge(place);
            let from = spot.way_to(edge.from);
            let to = spot.way_to(edge.to);
            from.spanned(to) == 0 && from.along(to) <= 0
        })
    }

    // With a corner wherever one of the parts of an edge ends on the border of the other.
    pub(crate) fn with_corners_on(
        &self,
        heap: Global,
        other: &Ring,
        parts: u32,
    ) -> Result<Self, AllocError> {
        let mut corners = Vec::new(heap);
        for edge in Segment::all(heap, self)? {
            corners.push(edge.from)?;
            for share in 1..parts {
                let spot = edge.part(i64::from(share), parts);
                if other.borders_on(spot) {
                    corners.push(spot)?;
                }
            }
        }
        Ok(Ring { corners })
    }
}
