// A dialogue with the map: a line is read as a command, asked of the machine, and what came of it is answered as text.
#![tactic(auto)]

mod answering;
mod asking;
mod conversing;
mod help;
mod neighbours;
mod outcome;
mod replying;
mod responding;

pub use answering::answer_to;
pub use asking::request_of;
pub use conversing::converse;
pub use help::HELP;
pub use neighbours::read_neighbours;
pub use outcome::Outcome;
pub use phrase::without_newline;
pub use replying::reply_to;
pub use responding::{not_understood, respond};
