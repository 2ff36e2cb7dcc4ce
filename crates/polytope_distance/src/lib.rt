//! The distance of the hulls of two sets of points of space.
//!
//! - `nearest`: the call
//! - `sums`: the sums that the answer comes from
//! - `pairs`: the supports as an answer lists them
//! - `simplices`: the distance by another way, for the tests
#![tactic(auto)]

mod nearest;
mod pairs;
mod sums;

pub use nearest::distance;
