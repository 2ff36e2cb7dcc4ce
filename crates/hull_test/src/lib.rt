//! Whether a list of corners goes once around all points of a cloud, without memory.
//!
//! - `hulls`: the test, and the corners that are listed
//! - `chain`: three corners or more, as a chain of the directions that their edges look out to
#![tactic(auto)]

mod chain;
mod hulls;

pub use hulls::{corner, is_around};
