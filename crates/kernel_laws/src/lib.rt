//! Plane and space behind one trait with laws, so that balls and distances are proved once for both.
//!
//! - `vectors`: differences of points, and sums of them
//! - `kernels`: the plane and the space
//! - `potentials`: the slack for balls and the slack for distances
//! - `signs`: on which side of a line, a plane or a circle a point lies
//! - `solver`: weights of equal slacks, or numbers that show a dependence; below it `weights`, `lists` and `arithmetic`
//! - `laws`: the laws of signs
#![tactic(auto)]

mod arithmetic;
mod kernels;
pub mod laws;
mod lists;
mod potentials;
mod signs;
mod solver;
mod vectors;
mod weights;

pub use kernels::{Kernel, Plane, Space};
pub use potentials::{BallPotential, NormPotential, Potential};
pub use signs::{Sign, orient2, orient3, side};
pub use solver::Solved;
pub use vectors::{Sum, Vector};
