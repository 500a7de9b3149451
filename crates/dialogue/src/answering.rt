// What is answered to a command, once the machine has ended.
ghost use Rattle.std.specs.Prelude.{◌≡◌, IfOk};
ghost use Rattle.phrase.specs.Commands.{said};
ghost use Rattle.dialogue.specs.Replies.{replied, way_told, all_told, neighbours, area_told, answer_of};

use crate::neighbours::read_neighbours;
use phrase::{Answer, Command};
use std::alloc::{AllocError, Global};
use terms::Way;

#[tactic(auto, using(crate::proofs::Pairing::way_found, crate::proofs::Pairing::no_way))]
fn way_told(first: u64, second: u64, shown: &[u64]) -> Answer
    ensures { replied result ≡ way_told first second shown.now }
{
    let [number] = shown else {
        return Answer::Done;
    };
    let Ok(way) = Way::try_from(*number) else {
        return Answer::Done;
    };
    Answer::Lie { first, second, way }
}

fn all_told(heap: Global, number: u64, shown: &[u64]) -> Result<Answer, AllocError>
    ensures { IfOk result (λ a. replied a ≡ all_told number (neighbours shown.now)) }
{
    let Some(rows) = read_neighbours(heap, shown)? else {
        return Ok(Answer::Done);
    };
    Ok(Answer::AllLie { number, rows })
}

fn area_told(number: u64, shown: &[u64]) -> Answer
    ensures { replied result ≡ area_told number shown.now }
{
    let [twice] = shown else {
        return Answer::Done;
    };
    Answer::Area {
        number,
        twice: *twice,
    }
}

// The answer to a command that ended so, done or refused with a number, after these numbers were shown.
pub fn answer_to(
    heap: Global,
    command: &Command,
    ended: Result<(), u64>,
    shown: Vec<u64>,
) -> Result<Answer, AllocError>
    ensures { IfOk result (λ a. replied a ≡ answer_of (said command.now) ended shown.items) }
{
    if let Err(reason) = ended {
        return Ok(Answer::Refused { reason });
    }
    match command {
        Command::AtPoint(point) => Ok(Answer::Point {
            point: *point,
            grounds: shown,
        }),
        Command::HowLie { first, second } => Ok(way_told(*first, *second, shown.as_slice())),
        Command::AllThatLie { number } => all_told(heap, *number, shown.as_slice()),
        Command::AreaOf { number } => Ok(area_told(*number, shown.as_slice())),
        _ => Ok(Answer::Done),
    }
}
