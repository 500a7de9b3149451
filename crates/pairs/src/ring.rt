// Rings of corners.
use crate::motion::Motion;
use crate::segment::Segment;
use crate::spot::Spot;
use ground::is_ground;
use std::alloc::{AllocError, Global};

#[derive(Drop)]
pub struct Ring {
    pub corners: Vec<Spot>,
}

impl Ring {
    pub(crate) fn of(heap: Global, corners: &[Spot]) -> Result<Self, AllocError> {
        Ok(Ring {
            corners: Vec::from_slice(heap, corners)?,
        })
    }

    // The upright rectangle of two opposite corners.
    pub(crate) fn upright(heap: Global, low: Spot, high: Spot) -> Result<Self, AllocError> {
        Ring::of(
            heap,
            &[low, Spot::at(high.x, low.y), high, Spot::at(low.x, high.y)],
        )
    }

    // Two numbers a corner. One that lies west or south of the map gets numbers that are no ground's.
    pub(crate) fn row(&self, heap: Global) -> Result<Vec<u64>, AllocError> {
        let mut row = Vec::new(heap);
        for corner in self.corners.iter() {
            row.push(u64::try_from(corner.x).unwrap_or(u64::MAX))?;
            row.push(u64::try_from(corner.y).unwrap_or(u64::MAX))?;
        }
        Ok(row)
    }

    pub(crate) fn is_ground(&self, heap: Global) -> Result<bool, AllocError> {
        Ok(is_ground(&self.row(heap)?).is_ok())
    }

    pub(crate) fn corner(&self, place: usize) -> Spot {
        self.corners.get(place).copied().unwrap_or_default()
    }

    // The corner after a place; the first one after the last.
    pub(crate) fn corner_after(&self, place: usize) -> Spot {
        let next = place.wrapping_add(1);
        if next < self.corners.len() {
            self.corner(next)
        } else {
            self.corner(0)
        }
    }

    pub(crate) fn corner_before(&self, place: usize) -> Spot {
        if place == 0 {
            self.corner(self.corners.len().wrapping_sub(1))
        } else {
            self.corner(place.wrapping_sub(1))
        }
    }

    // The edge that begins at a place.
    pub(crate) fn edge(&self, place: usize) -> Segment {
        Segment {
            from: self.corner(place),
            to: self.corner_after(place),
        }
    }

    pub(crate) fn reversed(mut self) -> Self {
        self.corners.reverse();
        self
    }

    // Moved, and still gone round the same way.
    pub(crate) fn under(mut self, motion: Motion) -> Self {
        for corner in self.corners.iter_mut() {
            *corner = motion.of(*corner);
        }
        if motion.mirrors() {
            self.corners.reverse();
        }
        self
    }

    pub(crate) fn ended_by(mut self, corners: &[Spot]) -> Result<Self, AllocError> {
        self.corners.extend_from_slice(corners)?;
        Ok(self)
    }

    // With another corner as the first.
    pub(crate) fn begun_at(mut self, start: usize) -> Self {
        if start < self.corners.len() {
            self.corners.rotate_left(start);
        }
        self
    }

    // With one corner moved.
    pub(crate) fn with_moved(mut self, place: usize, way: Spot) -> Self {
        if let Some(corner) = self.corners.get_mut(place) {
            *corner = corner.plus(way);
        }
        self
    }

    // The corners from one place to another, both of them too, on over the end of the row.
    pub(crate) fn stretch(&self, heap: Global, from: usize, to: usize) -> Result<Self, AllocError> {
        let count = if from <= to {
            to - from
        } else {
            self.corners.len().wrapping_add(to).wrapping_sub(from)
        };
        let mut ring = Ring::of(heap, &self.corners)?.begun_at(from);
        ring.corners.truncate(count.wrapping_add(1));
        Ok(ring)
    }
}
