// Corners, how three of them turn, and edges: what lies on one, where two meet, and which are crossed on the way to the east.
// Every answer is exact for all numbers of 64 bits.
#![tactic(auto)]

mod area;
mod corner;
mod edge;
mod entry;
mod extent;
mod reply;
mod sight;
#[cfg(test)]
mod tests;
mod theorems;
mod turning;
mod viewer;

pub use corner::{CORNER_LIMIT, Corner};
pub use edge::Edge;
pub use entry::turn;
pub use extent::{between, ranges_meet};
pub use reply::Reply;
pub use sight::Sight;
pub use theorems::{crossing_parity, equal_corners, meets_both_ways, turn_cycles, turn_reverses};
pub use turning::Turn;
pub use viewer::Viewer;
