//! The largest empty rectangle: the axis-parallel rectangle of greatest area in a frame with no point strictly inside it.
//!
//! - `largest_empty`: the answer, and the check that no rectangle is larger
//! - `search`: the largest rectangle over all seeds
//! - `sweep`: the rectangles that grow upwards from one seed
//! - `rectangles`: rectangles between points, each side of which rests on a point or on the frame
//! - `obstacles`: the points strictly inside the frame, in order of y
#![tactic(auto)]

mod largest_empty;
mod obstacles;
mod rectangles;
mod search;
mod sweep;

pub use largest_empty::{is_none_larger, largest};
