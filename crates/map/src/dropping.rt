// Dropping a ground: the records behind it move down over its own.
ghost use Rattle.std.specs.Prelude.{◌≡◌, true, false, length, MatchOption};
ghost use Rattle.map.specs.Sizes.{memory_length};
ghost use Rattle.map.specs.Memory.{within_count, behind, end_of};
ghost use Rattle.map.specs.House.{drop_it};
ghost use Rattle.map.specs.Promise.{said};
ghost use Rattle.map.specs.Machine.{acts};
ghost use Rattle.map.specs.Code.{Takes};

use crate::act::Act;
use crate::head::{count, end_of_records};
use crate::layout::{AT_CORNERS, AT_GROUNDS, COUNT_IN_RECORD, Memory};
use crate::records::{end_of_record, seek};
use std::ops::Range;
use terms::Refusal;

// The records behind the one at `place`, if that lies within what the head counts.
fn records_behind(memory: &Memory, place: usize) -> Option<Range<usize>>
    ensures { MatchOption result (within_count memory.now place ≡ false) (λ b. (within_count memory.now place ≡ true) × (b.start ≡ behind memory.now place) × (b.end ≡ end_of memory.now)) }
{
    let from = end_of_record(memory, place)?;
    let end = end_of_records(memory)?;
    if from > end || memory[place + COUNT_IN_RECORD] > memory[AT_CORNERS] {
        return None;
    }
    Some(from..end)
}

// Drops the ground with this number. In a memory that never held one there, it is not there.
#[tactic(auto, using(crate::proofs::Removals::moved_over), unfolding(crate::specs::Machine::acts, crate::specs::Machine::drop_step))]
pub(crate) fn drop_ground(memory: &mut Memory, number: u64) -> Act
    ensures { Takes result memory.new (acts memory.old (said (drop_it number))) }
{
    let Ok(place) = seek(memory, number) else {
        return Act::Refused(Refusal::NotThere);
    };
    let Some(behind) = records_behind(memory, place) else {
        return Act::Refused(Refusal::NotThere);
    };
    let grounds = memory[AT_GROUNDS] - 1;
    let corners = memory[AT_CORNERS] - memory[place + COUNT_IN_RECORD];
    memory.copy_within(behind, place);
    count(memory, grounds, corners);
    Act::Done
}
