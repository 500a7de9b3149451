// Putting a ground: the records behind its place move up, and its own is written there.
ghost use Rattle.std.specs.Prelude.{◌≡◌, ◌+◌, ◌%◌, ◌≤◌, true, false, length, MatchOption};
ghost use Rattle.std.proofs.Math.Seq.{paste};
ghost use Rattle.ground.specs.Shapes.{a_shape};
ghost use Rattle.ground.specs.Rows.{shape_of};
ghost use Rattle.ground.specs.Boxes.{box_of};
ghost use Rattle.map.specs.House.{put};
ghost use Rattle.map.specs.Promise.{said};
ghost use Rattle.map.specs.Sizes.{memory_length, record_length};
ghost use Rattle.map.specs.Memory.{end_of};
ghost use Rattle.map.specs.Machine.{acts};
ghost use Rattle.map.specs.Code.{Takes, room_for, written};

use crate::act::Act;
use crate::head::{count, end_of_records};
use crate::layout::{AT_CORNERS, AT_GROUNDS, MOST_CORNERS, MOST_GROUNDS, Memory, RECORD_LENGTH};
use crate::records::seek;
use crate::row::Row;
use ground::{Extent, is_ground};
use terms::Refusal;

// The box of a row that is a ground.
#[tactic(auto, using(crate::proofs::Insertions::ground_boxed))]
fn ground_box(row: Row<'_>) -> Option<Extent>
    ensures { MatchOption result (a_shape (shape_of row.entry.numbers.now) ≡ false) (λ e. (a_shape (shape_of row.entry.numbers.now) ≡ true) × (e ≡ box_of (shape_of row.entry.numbers.now))) }
{
    let Ok(()) = is_ground(row.numbers) else {
        return None;
    };
    Extent::of(row.numbers)
}

// Where the records end, if there is room for a ground with so many corners, and `place` lies within the records.
fn end_with_room(memory: &Memory, place: usize, corners: u64) -> Option<usize>
    requires { corners ≤ memory_length }
    ensures { MatchOption result (room_for memory.now place corners ≡ false) (λ e. (room_for memory.now place corners ≡ true) × (e ≡ end_of memory.now)) }
{
    let end = end_of_records(memory)?;
    if memory[AT_GROUNDS] >= MOST_GROUNDS
        || memory[AT_CORNERS] + corners > MOST_CORNERS
        || place > end
    {
        return None;
    }
    Some(end)
}

// Writes a record over what stands at `place`: its start, and then the corners.
fn write_record(memory: &mut Memory, place: usize, number: u64, bounds: Extent, row: &[u64])
    requires { place + (record_length + length row.now) ≤ memory_length }
    ensures { memory.new ≡ paste memory.old place (written number bounds row.now) (record_length + length row.now) }
{
    let start = [
        number,
        (row.len() / 2) as u64,
        bounds.west,
        bounds.south,
        bounds.east,
        bounds.north,
        0,
        0,
    ];
    let corners = place + RECORD_LENGTH;
    memory[place..corners].copy_from_slice(&start);
    memory[corners..corners + row.len()].copy_from_slice(row);
}

// Puts a ground under a number. Each check hands on what the next one needs, and nothing moves before the last.
#[tactic(auto, using(ground::proofs::Closing::shape_many, crate::proofs::Insertions::put_record), unfolding(crate::specs::Machine::acts, crate::specs::Machine::put_step))]
pub(crate) fn put_ground(memory: &mut Memory, number: u64, row: Row<'_>) -> Act
    ensures { Takes result memory.new (acts memory.old (said (put number (shape_of row.entry.numbers.now)))) }
{
    let Err(place) = seek(memory, number) else {
        return Act::Refused(Refusal::Taken);
    };
    let Some(bounds) = ground_box(row) else {
        return Act::Refused(Refusal::NoGround);
    };
    let row = row.numbers;
    let corners = (row.len() / 2) as u64;
    let Some(end) = end_with_room(memory, place, corners) else {
        return Act::Refused(Refusal::NoRoom);
    };
    let grounds = memory[AT_GROUNDS] + 1;
    let corners = memory[AT_CORNERS] + corners;
    memory.copy_within(place..end, place + (RECORD_LENGTH + row.len()));
    write_record(memory, place, number, bounds, row);
    count(memory, grounds, corners);
    Act::Done
}
