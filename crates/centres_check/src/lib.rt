//! The checkers of squares that cover points: they look at the points and the answer alone, and say yes exactly where the
//! squares cover the points and the leaves show that no smaller ones do. They take no memory.
//!
//! - `centres`: one to three squares
//! - `four`: four squares
//! - `cover`: the limits of an answer's numbers, and the cover
//! - `leaves`: the leaves below squares that are placed
//! - `boxes`: the bounding boxes of what squares leave over
//! - `heights`: the heights at which the first of four squares can stand, one after another
#![tactic(auto)]

mod boxes;
mod centres;
mod cover;
mod four;
mod heights;
mod leaves;

pub use centres::check_centres;
pub use four::check_four;
