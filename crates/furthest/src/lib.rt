//! The furthest neighbour of each corner of a hull.
//!
//! - `neighbours`: the answer
//! - `columns`: the first furthest corners, found by halving the rows of the table of distances
//! - `scan`: one row of the table
#![tactic(auto)]

mod columns;
mod neighbours;
mod scan;

pub use neighbours::furthest;
