//! Points whose coordinates are in bounds, clouds of them, and counted access to their points.
//!
//! - `point`: points of the plane and of space, made only inside their bounds
//! - `points`: lists of at most 10000 points
//! - `cloud`: borrowed lists of 1 to 10000 points, plain and counted
//! - `measure`: values of points, by which a pass over a cloud finds the least or the greatest
//! - `steps`: the counter of accesses
//! - `frame`: boxes for the empty rectangle
//! - `ask`: what is asked, and of which point sets
//! - `owned_sets`: the point sets of a file, owned
//! - `laws`: the order of points
//! - `memory`: want of memory, as every crate reports it
#![tactic(auto)]

mod ask;
mod cloud;
mod frame;
pub mod laws;
mod measure;
mod memory;
mod owned_sets;
mod point;
mod points;
mod steps;

pub use ask::{Ask, Sets, Shape, fit};
pub use cloud::{Cloud, Counted};
pub use frame::Frame;
pub use measure::Measure;
pub use memory::OutOfMemory;
pub use owned_sets::OwnedSets;
pub use point::{Point2, Point3};
pub use points::{Points, Points2, Points3, PushFault};
pub use steps::Steps;

/// A cloud of points of the plane.
pub type Cloud2<'a> = Cloud<'a, Point2>;

/// A cloud of points of space.
pub type Cloud3<'a> = Cloud<'a, Point3>;
