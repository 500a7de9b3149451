// A line without its newline, and without its comment; the lines of an input.
ghost use Rattle.std.specs.Prelude.{◌≡◌, ℕ, List, position, ◌==◌};
ghost use Rattle.std.specs.Io.BufRead.{take_through, first_piece};
ghost use Rattle.std.specs.Io.Iter.{split_byte, split_known_bytes};
ghost use Rattle.phrase.specs.Lines.{without_last, unended};
ghost use Rattle.phrase.specs.Words.{plain};

use std::alloc::Global;
use std::io::{BufRead, Split};

// Without its last byte, if that is `last`.
fn without_last(line: &[u8], last: u8) -> &[u8]
    ensures { result.now ≡ without_last last line.now }
{
    match line {
        [front @ .., b] if *b == last => front,
        _ => line,
    }
}

// The line without the newline at its end.
pub fn without_newline(line: &[u8]) -> &[u8]
    ensures { result.now ≡ unended line.now }
{
    without_last(line, b'\n')
}

// The lines of an input, one after the other, each as `without_newline` leaves it.
#[tactic(auto, using(crate::proofs::Pieces::line_piece))]
pub fn lines<R: BufRead + Drop>(heap: Global, input: R) -> Split<R>
    ensures bytes { split_known_bytes R.remaining result ≡ R.remaining input }
    ensures byte { split_byte result ≡ 10 }
    ensures pieces { (xs : List ℕ) → first_piece (split_byte result) xs ≡ unended (take_through 10 xs) }
{
    input.split(heap, b'\n')
}

// Where the first `#` stands.
fn comment_at(line: &[u8]) -> Option<usize>
    ensures { result ≡ position (λ b. b == 35) line.now }
{
    line.iter().position(|b| *b == b'#')
}

// What stands before the comment: nothing is read from a `#` on, nor a carriage return at the very end.
pub fn without_comment(line: &[u8]) -> &[u8]
    ensures { result.now ≡ plain line.now }
{
    match comment_at(line) {
        Some(n) => &line[..n],
        None => without_last(line, b'\r'),
    }
}
