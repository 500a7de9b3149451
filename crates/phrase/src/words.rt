// A line cut into its words. A comma separates words as a space does, so no word is ever empty.
ghost use Rattle.std.specs.Prelude.{◌≡◌, []};
ghost use Rattle.phrase.specs.Reading.{Reads, Closes};
ghost use Rattle.phrase.specs.Words.{separates, cut, name, word, all_words, words};

use crate::fault::NotUnderstood;
use crate::line::without_comment;
use crate::number::read_number;
use crate::word::{Name, Word};
use std::alloc::Global;

// The name that a word is, if it is one.
fn read_name(text: &[u8]) -> Option<Name>
    ensures { result ≡ name text.now }
{
    match text {
        b"put" => Some(Name::Put),
        b"drop" => Some(Name::Drop),
        b"at" => Some(Name::At),
        b"point" => Some(Name::Point),
        b"how" => Some(Name::How),
        b"lie" => Some(Name::Lie),
        b"all" => Some(Name::All),
        b"that" => Some(Name::That),
        b"on" => Some(Name::On),
        b"area" => Some(Name::Area),
        b"of" => Some(Name::Of),
        b"help" => Some(Name::Help),
        b"quit" => Some(Name::Quit),
        _ => None,
    }
}

fn read_word(text: &[u8]) -> Option<Word>
    ensures { result ≡ word text.now }
{
    read_name(text)
        .map(Word::Named)
        .or_else(|| read_number(text))
}

fn is_separator(b: u8) -> bool
    ensures { result ≡ separates b }
{
    matches!(b, b' ' | b'\t' | b',')
}

// Adds the word that ends here, if there is one. A function of entries is as short over its own marks: a shared one would take what is read as a closure.
fn close(words: &mut Vec<Word>, text: &[u8]) -> Result<(), NotUnderstood>
    ensures { Closes result text.now words.old.items words.new.items }
{
    if text.is_empty() {
        return Ok(());
    }
    words.push(read_word(text).ok_or(NotUnderstood::Unreadable)?)?;
    Ok(())
}

// Every word of a text without a comment.
fn cut_words(heap: Global, text: &[u8]) -> Result<Vec<Word>, NotUnderstood>
    ensures { Reads result (all_words (cut [] text.now)) (λ v. v.items) }
{
    let mut words = Vec::new(heap);
    for part in text.split(|b| is_separator(*b)) {
        close(&mut words, part)?;
    }
    Ok(words)
}

// Every word of a line.
pub(crate) fn read_words(heap: Global, line: &[u8]) -> Result<Vec<Word>, NotUnderstood>
    ensures { Reads result (words line.now) (λ v. v.items) }
{
    cut_words(heap, without_comment(line))
}
