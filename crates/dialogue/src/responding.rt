// A command, asked of the machine, and its answer as text.
ghost use Rattle.std.specs.Prelude.{◌≡◌, IfOk, MatchResult, Some, None, vec_items};
ghost use Rattle.std.specs.Option.{option_map};
ghost use Rattle.phrase.specs.Answers.{unread_line};
ghost use Rattle.phrase.specs.Commands.{said};
ghost use Rattle.dialogue.specs.Requests.{request_of};
ghost use Rattle.dialogue.specs.Responses.{ended_as, by_number, Responded};

use crate::answering::answer_to;
use crate::asking::request_of;
use map::{AskError, Machine};
use phrase::{Answer, Command, write_answer};
use std::alloc::{AllocError, Global};

// How a request ended, where memory was not wanting: a refusal by its number.
fn end_of(asked: Result<(), AskError>) -> Result<Result<(), u64>, AllocError>
    ensures { MatchResult result (λ n. option_map by_number (ended_as asked) ≡ Some n) (λ _. ended_as asked ≡ None) }
{
    match asked {
        Ok(()) => Ok(Ok(())),
        Err(error) => Ok(Err(u64::from(error.refusal()?))),
    }
}

// Asks the machine, and writes what it answered; help, quitting and an empty line have no answer here.
pub fn respond(
    heap: Global,
    machine: &mut Machine,
    command: &Command,
) -> Result<Vec<u8>, AllocError>
    ensures { Responded (request_of (said command.now)) (said command.now) machine.old.memory.items machine.new.memory.items result vec_items }
{
    let Some(request) = request_of(command) else {
        return Ok(Vec::new(heap));
    };
    let mut shown = Vec::new(heap);
    let ended = end_of(machine.ask(request, &mut shown))?;
    let answer = answer_to(heap, command, ended, shown)?;
    write_answer(heap, &answer)
}

// The answer to a line that is no command.
pub fn not_understood(heap: Global, line: &[u8]) -> Result<Vec<u8>, AllocError>
    ensures { IfOk result (λ v. v.items ≡ unread_line line.now) }
{
    let answer = Answer::NotUnderstood {
        line: Vec::from_slice(heap, line)?,
    };
    write_answer(heap, &answer)
}
