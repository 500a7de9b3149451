// Which command a list of words is.
ghost use Rattle.std.specs.Prelude.{◌≡◌};
ghost use Rattle.std.specs.Option.{option_map};
ghost use Rattle.phrase.specs.Commands.{said};
ghost use Rattle.phrase.specs.Firsts.{behind, bare, by_first};
ghost use Rattle.phrase.specs.Grammar.{row_words, put_words};
ghost use Rattle.phrase.specs.Reading.{Reads};

use crate::command::Command;
use crate::fault::NotUnderstood;
use crate::point::read_point;
use crate::row::{one_number, two_numbers, whole_numbers};
use crate::word::{Name, Word};
use std::alloc::Global;

// Ground `number` with the coordinates in `words`, two for each corner.
fn put_row(heap: Global, number: u64, words: &[Word]) -> Result<Command, NotUnderstood>
    ensures { Reads result (row_words number words.now) said }
{
    if words.len() % 2 != 0 {
        return Err(NotUnderstood::Unreadable);
    }
    let row = whole_numbers(heap, words)?;
    Ok(Command::Put { number, row })
}

fn put(heap: Global, words: &[Word]) -> Result<Command, NotUnderstood>
    ensures { Reads result (put_words words.now) said }
{
    match words {
        [Word::Whole(number), rest @ ..] => put_row(heap, *number, rest),
        _ => Err(NotUnderstood::Unreadable),
    }
}

// What stands behind `name`, if the words begin with it.
fn behind(words: &[Word], name: Name) -> Option<&[Word]>
    ensures { option_map (λ rest. rest.now) result ≡ behind name words.now }
{
    match words {
        [Word::Named(first), rest @ ..] if *first == name => Some(rest),
        _ => None,
    }
}

// The command that begins with `name`, if it has no row.
fn bare_command(name: Name, words: &[Word]) -> Option<Command>
    ensures { option_map said result ≡ bare name words.now }
{
    match name {
        Name::Drop => Some(Command::Drop {
            number: one_number(words)?,
        }),
        Name::At => Some(Command::AtPoint(read_point(behind(words, Name::Point)?)?)),
        Name::How => {
            let (first, second) = two_numbers(behind(words, Name::Lie)?)?;
            Some(Command::HowLie { first, second })
        }
        Name::All => {
            let rest = behind(behind(behind(words, Name::That)?, Name::Lie)?, Name::On)?;
            Some(Command::AllThatLie {
                number: one_number(rest)?,
            })
        }
        Name::Area => Some(Command::AreaOf {
            number: one_number(behind(words, Name::Of)?)?,
        }),
        Name::Help if words.is_empty() => Some(Command::Help),
        Name::Quit if words.is_empty() => Some(Command::Quit),
        _ => None,
    }
}

// The command that the words are, told by the first of them.
pub(crate) fn read_phrase(heap: Global, words: &[Word]) -> Result<Command, NotUnderstood>
    ensures { Reads result (by_first words.now) said }
{
    match words {
        [] => Ok(Command::Nothing),
        [Word::Named(Name::Put), rest @ ..] => put(heap, rest),
        [Word::Named(name), rest @ ..] => bare_command(*name, rest).ok_or(
            NotUnderstood::Unreadable,
        ),
        _ => Err(NotUnderstood::Unreadable),
    }
}
