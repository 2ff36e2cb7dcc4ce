//! The smallest annulus around points of the plane: two circles with one centre, all points between them, with the least difference of
//! the squared radii. A triangle of pairs of points stands around a target close to the origin, and rises until no pair is above it.
//!
//! - `smallest_annulus`: the call
//! - `target_triangle`: three pairs around the target, on the way to the best annulus
//! - `collinear`: points on one line
//! - `answering`: the annulus as an answer
//! - `pairs`: pairs of points by their numbers
//! - `difference_vectors`: their differences, lifted by the differences of the squared lengths
//! - `linear_forms`: linear forms on lifted points, such as the squared distance from a centre
//! - `extremes`: the points where a form is greatest and least
//! - `laws`: why the walk to the best annulus ends
#![tactic(auto)]

mod answering;
mod collinear;
mod difference_vectors;
mod extremes;
pub mod laws;
mod linear_forms;
mod pairs;
mod smallest_annulus;
mod target_triangle;

pub use smallest_annulus::annulus;
