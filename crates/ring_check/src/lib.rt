//! The checkers of annuli and shells: they look at the points and the answer alone, and say yes exactly where the answer's weighted
//! pairs show that no annulus or shell has a smaller difference of squared radii.
//!
//! - `annulus`: the checker of annuli
//! - `shell`: the checker of shells
//! - `places`: points of the plane and of space as vectors
//! - `centres`: centres, and the levels of points around them
//! - `levels`: the greatest and the least level
//! - `pairs`: whether weighted pairs are balanced and show a size
//! - `values`: whether a fraction has a value
#![tactic(auto)]

mod annulus;
mod centres;
mod levels;
mod pairs;
mod places;
mod shell;
mod values;

pub use annulus::check_annulus;
pub use shell::check_shell;
