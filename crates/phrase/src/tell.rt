// An answer as text.
ghost use Rattle.std.specs.Prelude.{◌≡◌, Some, IfOk, string_bytes};
ghost use Rattle.phrase.specs.Answers.{lie_line, all_lie_lines, numbers_or_none, point_line, area_line, refused_line, unread_line, answer_bytes};

use crate::answer::{Answer, Neighbour};
use crate::ratio::Ratio;
use std::alloc::{AllocError, Global};
use std::fmt;
use terms::{Point, Way};

// How the first and the second lie, as a line.
#[derive(Clone, Copy, PartialEq, Eq, Debug)]
struct Lying {
    first: u64,
    second: u64,
    way: Way,
}

impl fmt::Display for Lying {
    ghost output = { λ l. Some (lie_line l.first l.second l.way) };

    fn fmt<W: fmt::Write>(&self, f: &mut fmt::Formatter<W>) -> fmt::Result {
        let Lying { first, second, way } = *self;
        match way {
            Way::Apart => write!(f, "{first} and {second} are apart\n"),
            Way::Touch => write!(f, "{first} and {second} touch\n"),
            Way::Within => write!(f, "{first} is within {second}\n"),
            Way::Around => write!(f, "{second} is within {first}\n"),
            Way::Same => write!(f, "{first} and {second} are the same\n"),
            Way::Over => write!(f, "{first} and {second} lie over each other\n"),
        }
    }
}

// A line for each ground that lies on ground `number`, or `none`.
#[derive(Clone, Copy)]
struct AllLying<'a> {
    number: u64,
    rows: &'a [Neighbour],
}

impl fmt::Display for AllLying<'_> {
    ghost output = { λ l. Some (all_lie_lines l.number l.rows.now) };

    fn fmt<W: fmt::Write>(&self, f: &mut fmt::Formatter<W>) -> fmt::Result {
        if self.rows.is_empty() {
            return f.write_str("none\n");
        }
        let first = self.number;
        for row in self.rows {
            let lying = Lying {
                first,
                second: row.other,
                way: row.way,
            };
            write!(f, "{lying}")?;
        }
        Ok(())
    }
}

// Numbers with commas between them, or `none`.
#[derive(Clone, Copy)]
struct Numbers<'a>(&'a [u64]);

impl fmt::Display for Numbers<'_> {
    ghost output = { λ numbers. Some (numbers_or_none numbers.0.now) };

    fn fmt<W: fmt::Write>(&self, f: &mut fmt::Formatter<W>) -> fmt::Result {
        let [first, rest @ ..] = self.0 else {
            return f.write_str("none");
        };
        write!(f, "{first}")?;
        for number in rest {
            write!(f, ", {number}")?;
        }
        Ok(())
    }
}

fn refused_text(heap: Global, reason: u64) -> Result<String, AllocError>
    ensures { IfOk result (λ s. string_bytes s ≡ refused_line reason) }
{
    format!(in heap; "refused {reason}\n")
}

fn lie_text(heap: Global, first: u64, second: u64, way: Way) -> Result<String, AllocError>
    ensures { IfOk result (λ s. string_bytes s ≡ lie_line first second way) }
{
    let lying = Lying { first, second, way };
    format!(in heap; "{lying}")
}

fn all_lie_text(heap: Global, number: u64, rows: &[Neighbour]) -> Result<String, AllocError>
    ensures { IfOk result (λ s. string_bytes s ≡ all_lie_lines number rows.now) }
{
    let all = AllLying { number, rows };
    format!(in heap; "{all}")
}

fn point_text(heap: Global, point: Point, grounds: &[u64]) -> Result<String, AllocError>
    ensures { IfOk result (λ s. string_bytes s ≡ point_line point.a point.b point.w grounds.now) }
{
    let Point { a, b, w } = point;
    let across = Ratio { over: a, under: w };
    let up = Ratio { over: b, under: w };
    let numbers = Numbers(grounds);
    format!(in heap; "{across} {up}: {numbers}\n")
}

fn area_text(heap: Global, number: u64, twice: u64) -> Result<String, AllocError>
    ensures { IfOk result (λ s. string_bytes s ≡ area_line number twice) }
{
    format!(in heap; "twice the area of {number} is {twice}\n")
}

fn line_text(heap: Global, line: &[u8]) -> Result<Vec<u8>, AllocError>
    ensures { IfOk result (λ v. v.items ≡ unread_line line.now) }
{
    let mut out = Vec::from_slice(heap, b"not understood: ")?;
    out.extend_from_slice(line)?;
    out.push(b'\n')?;
    Ok(out)
}

// The lines that an answer is, each with its newline. They are bytes: a line that was not understood need be no UTF-8, so this can be no `Display`.
pub fn write_answer(heap: Global, answer: &Answer) -> Result<Vec<u8>, AllocError>
    ensures { IfOk result (λ v. v.items ≡ answer_bytes answer.now) }
{
    match answer {
        Answer::Done => Vec::from_slice(heap, b"done\n"),
        Answer::Refused { reason } => Ok(refused_text(heap, *reason)?.into_bytes()),
        Answer::Point { point, grounds } => {
            Ok(point_text(heap, *point, grounds.as_slice())?.into_bytes())
        }
        Answer::Lie { first, second, way } => Ok(lie_text(
            heap, *first, *second, *way,
        )?.into_bytes()),
        Answer::AllLie { number, rows } => {
            Ok(all_lie_text(heap, *number, rows.as_slice())?.into_bytes())
        }
        Answer::Area { number, twice } => Ok(area_text(heap, *number, *twice)?.into_bytes()),
        Answer::NotUnderstood { line } => line_text(heap, line.as_slice()),
    }
}
