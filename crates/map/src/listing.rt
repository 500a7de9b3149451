// Listing the grounds that have a point: a cursor in the head of the memory says where to go on.
ghost use Rattle.std.specs.Prelude.{◌≡◌, slice_index};
ghost use Rattle.map.specs.Sizes.{at_cursor, at_left, at_a, at_b, at_w};
ghost use Rattle.map.specs.Memory.{scan, opened};
ghost use Rattle.map.specs.Machine.{point as point_at, tell_step, acts};
ghost use Rattle.map.specs.Promise.{said, next};
ghost use Rattle.map.specs.House.{at_point};
ghost use Rattle.map.specs.Code.{Takes, point_of};

use crate::act::Act;
use crate::aim::Aim;
use crate::layout::{AT_A, AT_B, AT_CURSOR, AT_GROUNDS, AT_LEFT, AT_W, HEAD_LENGTH, Memory};
use crate::scanning::scan;
use terms::{Point, Refusal};

// Where a listing goes on: the place of a record, or 0 where none is open; how many records it has yet to look at; the point.
#[derive(Clone, Copy)]
struct Cursor {
    place: u64,
    left: u64,
    point: Point,
}

impl Cursor {
    fn read(memory: &Memory) -> Cursor
        ensures place { result.place ≡ slice_index memory.now at_cursor }
        ensures left { result.left ≡ slice_index memory.now at_left }
        ensures point { point_of result.point ≡ point_at (slice_index memory.now at_a) (slice_index memory.now at_b) (slice_index memory.now at_w) }
    {
        Cursor {
            place: memory[AT_CURSOR],
            left: memory[AT_LEFT],
            point: Point {
                a: memory[AT_A],
                b: memory[AT_B],
                w: memory[AT_W],
            },
        }
    }

    fn write(self, memory: &mut Memory)
        ensures { memory.new ≡ opened memory.old self.place self.left (point_of self.point) }
    {
        memory[AT_CURSOR] = self.place;
        memory[AT_LEFT] = self.left;
        memory[AT_A] = self.point.a;
        memory[AT_B] = self.point.b;
        memory[AT_W] = self.point.w;
    }
}

// Goes through `left` records from `place` on: shows the number of the first ground that has the point, and has the cursor stand behind it;
// or ends the listing.
#[tactic(auto, unfolding(crate::specs::Machine::tell_step))]
fn tell(memory: &mut Memory, aim: Aim, left: u64, place: u64) -> Act
    ensures { Takes result memory.new (tell_step memory.old (point_of aim.point) (scan memory.old (point_of aim.point) left place)) }
{
    let Some(hit) = scan(memory, aim, left, place) else {
        memory[AT_CURSOR] = 0;
        return Act::Done;
    };
    let cursor = Cursor {
        place: hit.next as u64,
        left: hit.left,
        point: aim.point,
    };
    cursor.write(memory);
    Act::Shows(hit.number)
}

// Begins a listing; one that was open is given up.
#[tactic(auto, unfolding(crate::specs::Machine::acts))]
pub(crate) fn list_at(memory: &mut Memory, point: Point) -> Act
    ensures { Takes result memory.new (acts memory.old (said (at_point point.a point.b point.w))) }
{
    let Some(aim) = Aim::at(point) else {
        return Act::Refused(Refusal::OutOfRange);
    };
    let grounds = memory[AT_GROUNDS];
    tell(memory, aim, grounds, HEAD_LENGTH as u64)
}

// Goes on with the listing that is open; where none is, it is done.
#[tactic(auto, unfolding(crate::specs::Machine::acts, crate::specs::Machine::next_step))]
pub(crate) fn go_on(memory: &mut Memory) -> Act
    ensures { Takes result memory.new (acts memory.old next) }
{
    let cursor = Cursor::read(memory);
    if cursor.place == 0 {
        return Act::Done;
    }
    let Some(aim) = Aim::at(cursor.point) else {
        memory[AT_CURSOR] = 0;
        return Act::Done;
    };
    tell(memory, aim, cursor.left, cursor.place)
}
