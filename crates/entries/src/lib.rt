// The lines of a register: each is an entry, a ground under its number, or nothing, or wrong for a reason.
//
//     17: 120 400, 180 420, 150 470                       corners, two numbers each; colon and commas may be left out
//     17 POLYGON((120 400, 180 420, 150 470, 120 400))    the same ground as well-known text
//
// Spaces and tabs separate; what follows a `#`, and a carriage return at the end, are passed over.
#![tactic(auto)]

mod cutting;
mod entry;
mod fault;
mod grammar;
mod laws;
mod mark;
mod reading;
mod refusal;
mod ring;
mod row;
mod wkt;
mod word;

pub use entry::Ground;
pub use fault::{Fault, ReadError};
pub use laws::written_is_read_back;
pub use reading::read_entry;
pub use refusal::refusal_text;
pub use wkt::write_wkt;
