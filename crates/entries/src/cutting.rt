// A line cut into its marks.
ghost use Rattle.std.specs.Prelude.{◌≡◌, [], position};
ghost use Rattle.phrase.specs.Words.{plain};
ghost use Rattle.entries.specs.Marks.{sign, separates, marks};
ghost use Rattle.entries.specs.Reading.{Reads, Closes, Signs};

use crate::fault::ReadError;
use crate::mark::Mark;
use crate::word::read_word;
use phrase::without_comment;
use std::alloc::Global;

fn sign(b: u8) -> Option<Mark>
    ensures { result ≡ sign b }
{
    match b {
        b',' => Some(Mark::Comma),
        b':' => Some(Mark::Colon),
        b'(' => Some(Mark::Open),
        b')' => Some(Mark::Close),
        _ => None,
    }
}

// Whether a word ends before this byte.
fn separates(b: u8) -> bool
    ensures { result ≡ separates b }
{
    b == b' ' || b == b'\t' || sign(b).is_some()
}

// Adds the word that ends here, if there is one. A function of phrase is as short over its own words: a shared one would take what is read as a closure. It is taken into its callers, since in a row of spaces most end no word.
#[inline(always)]
fn close(marks: &mut Vec<Mark>, text: &[u8]) -> Result<(), ReadError>
    ensures { Closes result text.now marks.old.items marks.new.items }
{
    if !text.is_empty() {
        marks.push(read_word(text)?)?;
    }
    Ok(())
}

// Adds the sign that this byte is, if it is one.
fn add_sign(marks: &mut Vec<Mark>, b: u8) -> Result<(), ReadError>
    ensures { Signs result (sign b) marks.old.items marks.new.items }
{
    if let Some(mark) = sign(b) {
        marks.push(mark)?;
    }
    Ok(())
}

// Where the first byte stands before which a word ends.
fn separator_at(text: &[u8]) -> Option<usize>
    ensures { result ≡ position separates text.now }
{
    text.iter().position(|b| separates(*b))
}

// Every mark of a text without a comment. The text is taken apart as slices: `split_inclusive`, which gives a word with the sign behind it, was tried, and its goals stayed open.
fn cut_marks(heap: Global, text: &[u8]) -> Result<Vec<Mark>, ReadError>
    ensures { Reads result (marks [] text.now) (λ v. v.items) }
{
    let mut marks = Vec::new(heap);
    let mut rest = text;
    while let Some(n) = separator_at(rest) {
        close(&mut marks, &rest[..n])?;
        add_sign(&mut marks, rest[n])?;
        rest = &rest[n + 1..];
    }
    close(&mut marks, rest)?;
    Ok(marks)
}

// Every mark of a line.
pub(crate) fn read_marks(heap: Global, line: &[u8]) -> Result<Vec<Mark>, ReadError>
    ensures { Reads result (marks [] (plain line.now)) (λ v. v.items) }
{
    cut_marks(heap, without_comment(line))
}
