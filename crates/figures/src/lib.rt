// What the trials make their figures of: numbers that look random, and a spiral.
#![tactic(auto)]

mod random;
mod spiral;

pub use random::Random;
pub use spiral::SPIRAL;
