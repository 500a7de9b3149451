// A made-up register of 940 grounds in the sea between two islands, always the same: cells with skew edges that neighbours share, some cut in two so that a part of an edge is shared, some
// grounds within others, and some that are disputed.
#![tactic(auto)]

mod grounds;
mod lattice;

pub use grounds::{COUNT, Ground, entry};
