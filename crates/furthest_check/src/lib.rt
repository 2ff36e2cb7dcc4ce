//! The checker of furthest neighbours: it looks at the points and the answer alone, and says yes exactly where the corners listed go once
//! around all points, the corner named for each of them is the first that is furthest from it, and the size is the greatest distance.
//!
//! - `neighbours`: the checker
//! - `limits`: the limits, and the numbers of the corners
//! - `rows`: whether the named corners are the first furthest ones, each compared with few others
#![tactic(auto)]

mod limits;
mod neighbours;
mod rows;

pub use neighbours::check_furthest;
