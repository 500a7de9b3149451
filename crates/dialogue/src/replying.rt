// A line and what it comes to.
ghost use Rattle.phrase.specs.Grammar.{meaning};
ghost use Rattle.dialogue.specs.Outcomes.{LineAnswered};

use crate::outcome::Outcome;
use crate::responding::{not_understood, respond};
use map::Machine;
use phrase::{Command, NotUnderstood, read_command};
use std::alloc::{AllocError, Global};

// Does what a line says. The line comes without its newline.
pub fn reply_to(heap: Global, machine: &mut Machine, line: &[u8]) -> Result<Outcome, AllocError>
    ensures { LineAnswered (meaning line.now) line.now machine.old.memory.items machine.new.memory.items result }
{
    match read_command(heap, line) {
        Ok(Command::Help) => Ok(Outcome::Help),
        Ok(Command::Quit) => Ok(Outcome::Quit),
        Ok(Command::Nothing) => Ok(Outcome::Silence),
        Ok(command) => Ok(Outcome::Text(respond(heap, machine, &command)?)),
        Err(NotUnderstood::Unreadable) => Ok(Outcome::Text(not_understood(heap, line)?)),
        Err(NotUnderstood::OutOfMemory) => Err(AllocError),
    }
}
