//! The smallest circle around points of the plane, and the smallest sphere around points of space.
//!
//! - `enclosing`: the two calls
//! - `ball`: a ball with the supports that determine it
//! - `ball_answers`: the ball as an answer
//! - `sums`: the sums that its size and its centre come from
#![tactic(auto)]

mod ball;
mod ball_answers;
mod enclosing;
mod sums;

pub use ball::Ball;
pub use enclosing::{circle, sphere};
