//! Directions of the plane and points, in machine numbers: products that stay within 64 bits for directions with coordinates of
//! at most 400000.
//!
//! - `products`: how far out points lie, triangles, lengths and distances
//! - `spans`: the bounds of points along a direction
#![tactic(auto)]

mod products;
mod spans;

pub use products::{
    along, beyond, cross, cross_directions, quarter_turn, reach, squared_distance, squared_length,
    turn,
};
pub use spans::span;
