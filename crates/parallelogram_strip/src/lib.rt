//! The thinnest strip and the smallest parallelogram around points of the plane, from the hull's fan over half a turn.
//!
//! - `solvers`: the answers for a cloud
//! - `smallest`: the parallelogram of a fan
//! - `thinnest`: the strip of least width
//! - `flat`: the answer for points on one line
//! - `chords`: the chords of all directions in one way around the fan, and the best
//! - `crossing`: where the line across a direction passes, and the chord there
//! - `around`: the fan's cones, carried on around the full turn
//! - `chord`: the chord from a point to an edge
#![tactic(auto)]

mod around;
mod chord;
mod chords;
mod crossing;
mod flat;
mod smallest;
mod solvers;
mod thinnest;

pub use solvers::{parallelogram, strip};
