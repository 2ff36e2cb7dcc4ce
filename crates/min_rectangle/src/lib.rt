//! The smallest rectangle around points of the plane, in any direction, from the hull's fan over a quarter turn.
//!
//! - `solvers`: the answer for a cloud
//! - `smallest`: the rectangle of a fan
#![tactic(auto)]

mod smallest;
mod solvers;

pub use solvers::rectangle;
