//! The checkers of answers with fans: strips, rectangles and parallelograms.
//!
//! - `strips`, `rectangles`, `parallelograms`: the checkers
//! - `fans`, `chords`: the limits on fans and on chords
//! - `spans`: normals, their bounds, and points inside them
#![tactic(auto)]

mod chords;
mod fans;
mod parallelograms;
mod rectangles;
mod spans;
mod strips;

pub use parallelograms::check_parallelogram;
pub use rectangles::check_rectangle;
pub use strips::check_strip;
