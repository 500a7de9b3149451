// The records of the grounds, one behind the other, whatever the memory holds.
ghost use Rattle.std.specs.Prelude.{◌≡◌, true, false, length, MatchOption, slice_index};
ghost use Rattle.map.specs.Sizes.{memory_length, head_length, at_grounds};
ghost use Rattle.map.specs.Memory.{whole_at, behind, seek};
ghost use Rattle.map.specs.Code.{Found};

use crate::layout::{
    AT_GROUNDS, COUNT_IN_RECORD, HEAD_LENGTH, MEMORY_LENGTH, Memory, RECORD_LENGTH,
};
use std::cmp::Ordering;

// Where the record at `place` ends, which is where the next one begins; none if it does not lie in the memory as a whole.
pub(crate) fn end_of_record(memory: &Memory, place: usize) -> Option<usize>
    ensures { MatchOption result (whole_at memory.now place ≡ false) (λ e. (whole_at memory.now place ≡ true) × (e ≡ behind memory.now place)) }
{
    if place > MEMORY_LENGTH - RECORD_LENGTH {
        return None;
    }
    let corners = memory[place + COUNT_IN_RECORD];
    if corners > ((MEMORY_LENGTH - RECORD_LENGTH - place) / 2) as u64 {
        return None;
    }
    Some(place + RECORD_LENGTH + 2 * corners as usize)
}

// The place of the record with this number, or else the place where it would stand. A walk by places, as that of `scan`: where it stops short the place is told too,
// which an iterator over records would not give.
#[tactic(auto, using(std::proofs::lemmas::Bool::Decides::nat_tests, crate::proofs::Walks::seek_step, crate::proofs::Walks::seek_end))]
pub(crate) fn seek(memory: &Memory, number: u64) -> Result<usize, usize>
    ensures { Found result (seek memory.now (slice_index memory.now at_grounds) head_length number) }
{
    let mut place = HEAD_LENGTH;
    for _left in (0..memory[AT_GROUNDS]).rev() {
        let Some(next) = end_of_record(memory, place) else {
            return Err(place);
        };
        match memory[place].cmp(&number) {
            Ordering::Less => place = next,
            Ordering::Equal => return Ok(place),
            Ordering::Greater => return Err(place),
        }
    }
    Err(place)
}
