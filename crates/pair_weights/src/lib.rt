//! What the engines of annuli and shells share: the extremes of the values at points, and the weights of pairs of points.
//!
//! - `extremes`: the greatest and the least of some values, and their numbers
//! - `weighted_lists`: pairs, listed where they have a weight
//! - `lowest_terms`: pairs over the greatest common divisor of their weights
#![tactic(auto)]

pub mod extremes;
mod lowest_terms;
mod weighted_lists;

pub use lowest_terms::in_lowest_terms;
pub use weighted_lists::push_weighted;
