// Rings of corners to try: random ones, combs and spirals.
use figures::{Random, SPIRAL};
use std::alloc::{AllocError, Global};

// Two numbers a corner.
#[derive(Drop)]
pub struct Ring {
    pub row: Vec<u64>,
}

impl Ring {
    fn empty(heap: Global) -> Self {
        Ring {
            row: Vec::new(heap),
        }
    }

    fn add(&mut self, x: u32, y: u32) -> Result<(), AllocError> {
        self.row.extend_from_slice(&[u64::from(x), u64::from(y)])
    }

    // So many corners anywhere on a grid: most such rows are no grounds.
    pub(crate) fn scattered(
        heap: Global,
        random: &mut Random,
        count: u32,
        grid: u32,
    ) -> Result<Self, AllocError> {
        let mut ring = Ring::empty(heap);
        for _ in 0..count {
            let x = random.below(grid);
            let y = random.below(grid);
            ring.add(x, y)?;
        }
        Ok(ring)
    }

    // A level base with pointed teeth: reflex corners, and many edges at one height.
    pub(crate) fn comb(heap: Global, teeth: u32, height: u32) -> Result<Self, AllocError> {
        let mut ring = Ring::empty(heap);
        let width = teeth.wrapping_mul(2);
        ring.add(0, 0)?;
        ring.add(width, 0)?;
        for tooth in 0..teeth {
            let east = width.wrapping_sub(tooth.wrapping_mul(2));
            ring.add(east, height)?;
            ring.add(east.wrapping_sub(1), 1)?;
        }
        ring.add(0, height)?;
        Ok(ring)
    }

    // One more corner, on the base of a comb.
    pub(crate) fn insert_corner_on_base(&mut self) -> Result<(), AllocError> {
        if self.row.len() < 4 {
            return Ok(());
        }
        self.row.insert(2, 1)?;
        self.row.insert(3, 0)?;
        Ok(())
    }

    // The spiral, begun at one of its corners; `stretch` is the length of an ell.
    pub(crate) fn spiral(heap: Global, first: usize, stretch: u32) -> Result<Self, AllocError> {
        let mut ring = Ring::empty(heap);
        let mut corners = SPIRAL;
        corners.rotate_left(first % SPIRAL.len());
        for [x, y] in corners {
            ring.add(x.wrapping_mul(stretch), y.wrapping_mul(stretch))?;
        }
        Ok(ring)
    }

    // A convex ring with a corner amid each level side, so that three corners stand in line.
    pub(crate) fn plank(heap: Global, stretch: u32) -> Result<Self, AllocError> {
        let mut ring = Ring::empty(heap);
        let near = stretch.wrapping_add(1);
        let far = stretch.wrapping_add(near);
        for [x, y] in [[1, 1], [near, 1], [far, 1], [far, 4], [near, 4], [1, 4]] {
            ring.add(x, y)?;
        }
        Ok(ring)
    }
}
