// Numbers of 128 bits: products of two words, sums, and which of two is larger. No geometry, and no operation that wraps.
#![tactic(auto)]

mod number;

pub use number::Wide;
