// One ground: which rows of numbers are grounds, which points they have, the boxes around them, and what is so of all grounds.
#![tactic(auto)]

mod area;
mod area_theorems;
mod bounding;
mod looking;
mod range;
mod refusal;
mod ring;
#[cfg(test)]
mod tests;
mod theorems;
mod validity;
mod walks;

pub use area::twice_area;
pub use area_theorems::{
    area_is_measure, cells_are_whole, cells_exist, cut_areas_add_up, ground_is_on_the_left,
    parity_amid_edges, parts_add_up, same_points_same_area, within_has_no_more_area,
};
pub use bounding::Extent;
pub use looking::{Look, has_point};
pub use refusal::NoGround;
pub use theorems::{
    any_beginning_serves, box_holds, looking_north_agrees, same_point_same_answer,
    some_point_is_inside, within_within, worked_examples_hold,
};
pub use validity::{MOST_CORNERS, is_ground};
pub use walks::{Corners, Edges};
