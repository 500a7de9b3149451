// A line as a command.
ghost use Rattle.phrase.specs.Commands.{said};
ghost use Rattle.phrase.specs.Grammar.{meaning};
ghost use Rattle.phrase.specs.Reading.{Reads};

use crate::command::Command;
use crate::fault::NotUnderstood;
use crate::grammar::read_phrase;
use crate::words::read_words;
use std::alloc::Global;

// The command that a line is. The line comes without its newline.
#[tactic(auto, using(crate::proofs::Firsts::meaning_by_first))]
pub fn read_command(heap: Global, line: &[u8]) -> Result<Command, NotUnderstood>
    ensures { Reads result (meaning line.now) said }
{
    let words = read_words(heap, line)?;
    read_phrase(heap, words.as_slice())
}
