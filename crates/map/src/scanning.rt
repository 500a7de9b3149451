// Looking for the next ground that has a point.
ghost use Rattle.std.specs.Prelude.{◌≡◌, ◌+◌, ◌≤◌, true, length};
ghost use Rattle.map.specs.Sizes.{memory_length, record_length};
ghost use Rattle.map.specs.Memory.{whole_at, behind, has_at, scan};
ghost use Rattle.map.specs.Code.{point_of, box_at, Hits};

use crate::aim::Aim;
use crate::layout::{
    EAST_IN_RECORD, Memory, NORTH_IN_RECORD, RECORD_LENGTH, SOUTH_IN_RECORD, WEST_IN_RECORD,
};
use crate::records::end_of_record;
use ground::{Extent, has_point};

// A ground that has the point: its number, where the next record begins, and how many there are behind it.
#[derive(Clone, Copy, PartialEq, Eq, Debug)]
pub struct Hit {
    pub number: u64,
    pub next: usize,
    pub left: u64,
}

// The box of the record at `place`, by named places: a pattern over the numbers there would say less of what stands where.
fn box_at(memory: &Memory, place: usize) -> Extent
    requires { place + record_length ≤ memory_length }
    ensures { result ≡ box_at memory.now place }
{
    Extent {
        west: memory[place + WEST_IN_RECORD],
        south: memory[place + SOUTH_IN_RECORD],
        east: memory[place + EAST_IN_RECORD],
        north: memory[place + NORTH_IN_RECORD],
    }
}

// Whether the ground of the record from `place` to `end` has the point. Its box comes first: four comparisons with the box around the point
// pass over most grounds. Numbers that are no corners' make no ground.
#[tactic(auto, using(crate::proofs::Listings::box_tells, crate::proofs::Listings::looked, crate::proofs::Listings::cut), unfolding(crate::specs::Memory::has_at))]
fn has_at(memory: &Memory, place: usize, end: usize, aim: Aim) -> bool
    requires place_value { whole_at memory.now place ≡ true }
    requires end_value { end ≡ behind memory.now place }
    ensures { result ≡ has_at memory.now place (point_of aim.point) }
{
    box_at(memory, place).holds(aim.around)
        && has_point(&memory[place + RECORD_LENGTH..end], aim.point).unwrap_or(false)
}

// The first of `left` records from `place` on whose ground has the point.
#[tactic(auto, using(crate::proofs::Walks::scan_step, crate::proofs::Walks::scan_end))]
pub(crate) fn scan(memory: &Memory, aim: Aim, left: u64, place: u64) -> Option<Hit>
    ensures { Hits memory.now result (scan memory.now (point_of aim.point) left place) }
{
    let mut place = place as usize;
    for left in (0..left).rev() {
        let next = end_of_record(memory, place)?;
        if has_at(memory, place, next, aim) {
            return Some(Hit {
                number: memory[place],
                next,
                left,
            });
        }
        place = next;
    }
    None
}
