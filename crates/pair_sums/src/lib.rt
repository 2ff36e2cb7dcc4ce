//! Sums over weighted pairs of points, one of each set, and the distance of the sets' hulls that they give.
//!
//! - `sums`: the sums, one pair after another, and the vector between the weighted sums
//! - `means`: the squared distance, the two nearest points and the direction between them
#![tactic(auto)]

mod means;
mod sums;

pub use sums::PairSums;
