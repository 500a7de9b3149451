// Two grounds: how they lie to each other.
#![tactic(auto)]

mod contact;
mod crossings;
mod pair;
mod parities;
mod ring;
mod sides;
mod theorems;

pub use pair::how_two_lie;
pub use theorems::{
    corners_tell, crossing_over, meet_in_points, one_way, properly_within, touch_in_borders,
    turned_round, way_found_tells, way_tells, worked_ways_hold,
};
