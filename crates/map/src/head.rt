// The head of the memory: how many grounds and corners it holds, and where that has its records end.
ghost use Rattle.std.specs.Prelude.{◌≡◌, ◌<◌, ◌≤◌, length, MatchOption};
ghost use Rattle.map.specs.Sizes.{memory_length};
ghost use Rattle.map.specs.Memory.{end_of, counted};

use crate::layout::{
    AT_CORNERS, AT_CURSOR, AT_GROUNDS, HEAD_LENGTH, MEMORY_LENGTH, Memory, RECORD_LENGTH,
};

// Where the records end, by what the head says; none if that is not in the memory.
pub(crate) fn end_of_records(memory: &Memory) -> Option<usize>
    ensures { MatchOption result (memory_length < end_of memory.now) (λ e. (e ≡ end_of memory.now) × (e ≤ memory_length)) }
{
    let grounds = memory[AT_GROUNDS];
    let corners = memory[AT_CORNERS];
    if grounds > MEMORY_LENGTH as u64 || corners > MEMORY_LENGTH as u64 {
        return None;
    }
    let end = HEAD_LENGTH + RECORD_LENGTH * grounds as usize + 2 * corners as usize;
    if end > MEMORY_LENGTH {
        return None;
    }
    Some(end)
}

// Says how many grounds and corners there are now, and that no listing is open.
pub(crate) fn count(memory: &mut Memory, grounds: u64, corners: u64)
    ensures { memory.new ≡ counted grounds corners memory.old }
{
    memory[AT_GROUNDS] = grounds;
    memory[AT_CORNERS] = corners;
    memory[AT_CURSOR] = 0;
}
