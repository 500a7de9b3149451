// Two rings.
use crate::motion::Motion;
use crate::ring::Ring;
use figures::Random;
use std::alloc::{AllocError, Global};

#[derive(Drop)]
pub struct Pair {
    pub first: Ring,
    pub second: Ring,
}

impl Pair {
    pub(crate) fn are_grounds(&self, heap: Global) -> Result<bool, AllocError> {
        Ok(self.first.is_ground(heap)? && self.second.is_ground(heap)?)
    }

    // Laid anyhow, begun anywhere, and either of the two first.
    pub(crate) fn shuffled(self, random: &mut Random) -> Self {
        let Pair { first, second } = self;
        let symmetry = Motion::symmetry(random);
        let start = random.place(first.corners.len());
        let first = first.under(symmetry).begun_at(start);
        let start = random.place(second.corners.len());
        let second = second.under(symmetry).begun_at(start);
        if random.one_in(2) {
            Pair { first, second }
        } else {
            Pair {
                first: second,
                second: first,
            }
        }
    }
}
