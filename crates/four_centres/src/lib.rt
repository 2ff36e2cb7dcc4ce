//! Four rectangular centres: squares of one size around four centres that cover all points.
//!
//! - `squares`: the answer
//! - `search`: the least side, over all heights of the first square
//! - `heights`: where the first square can stand
//! - `trials`: squares of a given side with the first one placed, or the leaves that refute them
//! - `tree`: three squares for what the first leaves over, or the tree of corners that refutes them
//! - `surveys`: whether one square covers what is left over, or two far points
//! - `ends`: the ends of what squares leave over, in x and in y
//! - `orders`: the points from left to right, and from below
#![tactic(auto)]

mod ends;
mod heights;
mod orders;
mod search;
mod squares;
mod surveys;
mod tree;
mod trials;

pub use squares::{FourFault, four};
