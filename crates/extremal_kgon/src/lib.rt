//! Polygons with few corners: the first one of greatest area on at most k of the hull's corners, and potentials which show that
//! none is larger.
//!
//! - `polygon`: the answer for so many corners
//! - `table`: the potentials for each first corner, and the greatest of them
//! - `rows`: the potentials of a layer from those of the layer before
//! - `triangles`: the areas of the triangles with a first corner
//! - `vectors`: the vectors from a corner to the later ones
//! - `choice`: the first corners whose area is the greatest potential
#![tactic(auto)]

mod choice;
mod polygon;
mod rows;
mod table;
mod triangles;
mod vectors;

pub use polygon::{KgonFault, kgon};
