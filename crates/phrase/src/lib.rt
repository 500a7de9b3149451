// The language of the keyboard: a line is read as a command, and a command or an answer is written as text.
//
//     put 1 0 0, 6 0, 6 6, 0 6       ground 1, by its corners
//     drop 1
//     at point 7 6 2                 the point 7/2, 6/2; also `at point 7/2 3` and `at point 3.5 3`
//     how lie 1, 3
//     all that lie on 1
//     area of 1
//     help        quit
//
// Spaces, tabs and commas separate words; what follows a `#`, and a carriage return at the end, are passed over.
#![tactic(auto)]

mod answer;
mod command;
mod fault;
mod grammar;
mod laws;
mod line;
mod number;
mod point;
mod ratio;
mod read;
mod row;
mod say;
mod tell;
#[cfg(test)]
mod tests;
mod word;
mod words;

pub use answer::{Answer, Neighbour};
pub use command::Command;
pub use fault::NotUnderstood;
pub use laws::{common_divisor_is_greatest, decimal_places_are_exact, written_is_read_back};
pub use line::{lines, without_comment, without_newline};
pub use number::{BadDigits, digits_after};
pub use read::read_command;
pub use say::write_command;
pub use tell::write_answer;
