//! Sums over the weighted points that determine a ball, and the ball that they give.
//!
//! - `sums`: the sums, one point after another
//! - `ball`: its size and its centre
#![tactic(auto)]

mod ball;
mod sums;

pub use sums::Sums;
