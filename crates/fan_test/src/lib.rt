//! Whether fans hold for points, in about n log m steps for n points and m directions, and without memory.
//!
//! - `direction`: directions in machine numbers
//! - `chain`: chains of directions with a point for each cone, and whether those points are furthest out
//! - `ends`: the two ends in a direction
//! - `fans`: the directions of fans, one by one
//! - `limits`: what is to be known of a fan before it is tested
//! - `half`: whether a fan over half a turn holds
//! - `quarter`: whether a fan over a quarter turn holds
#![tactic(auto)]

mod chain;
mod direction;
mod ends;
mod fans;
mod half;
mod limits;
mod quarter;

pub use chain::{Chain, EAST, NORTH, WEST, encloses, leads};
pub use direction::Direction;
pub use ends::End;
pub use fans::{half_direction, quarter_direction};
pub use half::holds_half;
pub use limits::{is_short, is_short_half, is_short_quarter, names_all_points, names_points};
pub use quarter::holds_quarter;
