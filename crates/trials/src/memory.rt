// The machine at its limits: full by number, full by corners, and with a memory of garbage.
use figures::Random;
use map::{MEMORY_LENGTH, Told, step};
use std::alloc::{AllocError, Global};
use terms::Point;

// The kinds of events, each with the number that a step takes for it.
#[derive(Clone, Copy)]
enum Kind {
    Put = 0,
    Drop = 1,
    AtPoint = 2,
    GoOn = 6,
}

// The machine with its memory, and the two numbers that it may show.
#[derive(Drop)]
pub struct Machine {
    memory: Vec<u64>,
    shown: [u64; 2],
}

impl Machine {
    pub(crate) fn new(heap: Global) -> Result<Self, AllocError> {
        Ok(Machine {
            memory: vec![in heap; 0; MEMORY_LENGTH]?,
            shown: [0; 2],
        })
    }

    // By a number, since numbers that are no kind are tried too.
    fn step(&mut self, kind: u64, a: u64, b: u64, c: u64, row: &[u64]) -> Told {
        step(
            self.memory.as_mut_slice(),
            kind,
            a,
            b,
            c,
            row,
            &mut self.shown,
        )
    }

    pub(crate) fn put(&mut self, number: u64, row: &[u64]) -> Told {
        self.step(Kind::Put as u64, number, 0, 0, row)
    }

    pub(crate) fn remove(&mut self, number: u64) -> Told {
        self.step(Kind::Drop as u64, number, 0, 0, &[])
    }

    // The grounds that are shown at a point.
    pub(crate) fn at_point(&mut self, heap: Global, point: Point) -> Result<Vec<u64>, AllocError> {
        let mut grounds = Vec::new(heap);
        let mut told = self.step(Kind::AtPoint as u64, point.a, point.b, point.w, &[]);
        // So often at the most, since the check wants an end.
        for _ in 0..2000u32 {
            if told != Told::Shows(1) {
                break;
            }
            grounds.push(self.shown[0])?;
            told = self.step(Kind::GoOn as u64, 0, 0, 0, &[]);
        }
        Ok(grounds)
    }

    // Any numbers anywhere in the memory; most of it as small as a machine's own would be.
    pub(crate) fn fill_with_garbage(&mut self, random: &mut Random, small: u32) {
        for cell in self.memory.iter_mut() {
            let n = random.number();
            *cell = if n % 8 == 0 {
                u64::from(n).wrapping_mul(u64::from(n))
            } else {
                u64::from(n % small.max(1))
            };
        }
    }

    // The first numbers of the memory: how many grounds, how many corners, and a cursor.
    pub(crate) fn forge_head(&mut self, random: &mut Random) {
        for cell in self.memory.iter_mut().take(16) {
            *cell = u64::from(random.below(1100));
        }
    }

    pub(crate) fn any_command(&mut self, random: &mut Random) -> Told {
        let kind = u64::from(random.below(8));
        let a = u64::from(random.below(40));
        let b = u64::from(random.below(40));
        let w = u64::from(random.below(4));
        let x = u64::from(random.below(40));
        let y = u64::from(random.below(40));
        let row = [x, y, x.wrapping_add(3), y, x, y.wrapping_add(3)];
        self.step(kind, a, b, w, &row)
    }

    pub(crate) fn len(&self) -> usize {
        self.memory.len()
    }
}
