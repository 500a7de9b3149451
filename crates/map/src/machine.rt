// One step of the machine.
ghost use Rattle.std.specs.Prelude.{◌≡◌};
ghost use Rattle.map.specs.Machine.{acts};
ghost use Rattle.map.specs.Entry.{StepSays, step_fits, lent_fits};
ghost use Rattle.map.specs.Asking.{event_heard};
ghost use Rattle.map.specs.Code.{Takes};

use crate::act::Act;
use crate::dropping::drop_ground;
use crate::event::{Event, Request};
use crate::layout::{MEMORY_LENGTH, Memory};
use crate::listing::{go_on, list_at};
use crate::putting::put_ground;
use crate::row::{LONGEST_ROW, Row};
use crate::told::Told;
use terms::Refusal;

// So many numbers are shown at once at most.
pub(crate) const MOST_SHOWN: usize = 2;

// Whether a step can be taken with what was lent for it: a row as `Row::handed` takes it, and room for what is shown.
fn fits(row: &[u64], out: &[u64]) -> bool
    ensures { result ≡ lent_fits row.now out.now }
{
    row.len() <= LONGEST_ROW && row.len() % 2 == 0 && out.len() >= MOST_SHOWN
}

// What the machine does at an event. Not inlined: within `step` its walk over the records would keep fewer of its numbers in registers.
#[inline(never)]
#[tactic(auto, unfolding(crate::specs::Machine::acts))]
fn act(memory: &mut Memory, event: Event<'_>) -> Act
    ensures { Takes result memory.new (acts memory.old (event_heard event.entry)) }
{
    match event {
        Event::Asked(Request::Put { number, row }) => put_ground(memory, number, Row::handed(row)),
        Event::Asked(Request::Drop { number }) => drop_ground(memory, number),
        Event::Asked(Request::AtPoint(point)) => list_at(memory, point),
        Event::Asked(
            Request::HowLie { .. } | Request::AllThatLie { .. } | Request::AreaOf { .. },
        ) => Act::Refused(Refusal::NotKnown),
        Event::GoOn => go_on(memory),
    }
}

// One step: an event in, an act out. What was lent for it and does not fit is told as 0, and nothing is changed.
#[tactic(auto, using(crate::proofs::Steps::lent_parts, crate::proofs::Steps::no_kind, crate::proofs::Steps::no_room, crate::proofs::Steps::no_memory, crate::proofs::Steps::step_taken))]
pub fn step(
    memory: &mut [u64],
    kind: u64,
    a: u64,
    b: u64,
    c: u64,
    row: &[u64],
    out: &mut [u64],
) -> Told
    ensures { StepSays memory.old kind a b c row.now out.old (step_fits memory.old kind row.now out.old) result memory.new out.new }
{
    let Some(event) = Event::numbered(kind, a, b, c, row) else {
        return Told::No(0);
    };
    if !fits(row, out) {
        return Told::No(0);
    }
    let Some(memory) = memory.as_mut_array::<MEMORY_LENGTH>() else {
        return Told::No(0);
    };
    act(memory, event).told(out)
}
