//! The checker of circles and spheres: it looks at the points and the answer alone, and says yes exactly where the weighted points hold the
//! ball, around all points.
//!
//! - `balls`: the checkers
#![tactic(auto)]

mod balls;

pub use balls::{check_circle, check_sphere};
