// The map as a machine: one lent memory, one step at a time, and what it promises over any list of commands.
#![tactic(auto)]

mod act;
mod aim;
mod asking;
mod dropping;
mod event;
mod failing;
mod head;
mod layout;
mod listing;
mod machine;
mod owner;
mod promises;
mod putting;
mod records;
mod row;
mod scanning;
mod told;

pub use event::Request;
pub use failing::AskError;
pub use layout::MEMORY_LENGTH;
pub use machine::step;
pub use owner::Machine;
pub use promises::{
    core_is_whole, dropped_number_is_gone, long_rows_are_refused_alike, only_put_numbers_are_told,
    own_is_steady, put_ground_stays, refused_leaves_no_trace, shown_numbers_rise,
};
pub use told::Told;
