//! The shell of least difference of the squared radii around points of space: two spheres with one centre, all points between them. A
//! tetrahedron of pairs of points stands around a target close to the origin, and rises until no pair is above it. Where the points are
//! in one plane, on one line or in one place, directions out of it stand in for the pairs that are not there.
//!
//! - `smallest_shell`: the call
//! - `tetrahedra`: four vertices around the target, on the way to the best shell
//! - `targets`: the target, and on which side of a plane it lies
//! - `bases`: three vertices that span space, to begin with
//! - `vertices`: pairs of points by their numbers, and directions
//! - `lifted_vectors`: their vectors, lifted by the differences of the squared lengths
//! - `linear_forms`: linear forms on lifted points, such as the squared distance from a centre
//! - `extremes`: the points where a form is greatest and least
//! - `answering`: the shell around a form's centre
//! - `laws`: why the walk to the best shell ends
#![tactic(auto)]

mod answering;
mod bases;
mod extremes;
pub mod laws;
mod lifted_vectors;
mod linear_forms;
mod smallest_shell;
mod targets;
mod tetrahedra;
mod vertices;

pub use smallest_shell::shell;
