//! How much further corners add to the area of a polygon: for each last corner, and for each number of corners that may still follow.
//!
//! - `vectors`: the vectors from a first corner, and the areas of the triangles over them
//! - `rows`: how much is added, in a row of numbers for each number of corners
#![tactic(auto)]

mod rows;
mod vectors;

pub use rows::{AddedRows, added_rows};
pub use vectors::{MOST_CORNERS, PlaneVector, area, vector_between, vectors_from};
