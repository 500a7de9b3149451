// The words that the map and the office have in common: points with fractions, the ways in which two grounds lie, and why a command is refused.
#![tactic(auto)]

mod point;
mod refusal;
mod way;

pub use point::{DENOMINATOR_LIMIT, NUMERATOR_LIMIT, Point};
pub use refusal::{NoRefusal, Refusal};
pub use way::{NoWay, Way};
