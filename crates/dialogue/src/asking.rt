// What a command asks of the machine.
ghost use Rattle.std.specs.Prelude.{◌≡◌};
ghost use Rattle.std.specs.Option.{option_map};
ghost use Rattle.map.specs.Asking.{event_said};
ghost use Rattle.phrase.specs.Commands.{said};
ghost use Rattle.dialogue.specs.Requests.{request_of};

use map::Request;
use phrase::Command;

// The request that a command is; help, quitting and an empty line ask nothing. A command owns its row and is read from a line, a request borrows one: of one type for
// both each arm would stay.
pub fn request_of(command: &Command) -> Option<Request<'_>>
    ensures { option_map event_said result ≡ request_of (said command.now) }
{
    match command {
        Command::Put { number, row } => Some(Request::Put {
            number: *number,
            row: row.as_slice(),
        }),
        Command::Drop { number } => Some(Request::Drop { number: *number }),
        Command::AtPoint(point) => Some(Request::AtPoint(*point)),
        Command::HowLie { first, second } => Some(Request::HowLie {
            first: *first,
            second: *second,
        }),
        Command::AllThatLie { number } => Some(Request::AllThatLie { number: *number }),
        Command::AreaOf { number } => Some(Request::AreaOf { number: *number }),
        Command::Help | Command::Quit | Command::Nothing => None,
    }
}
