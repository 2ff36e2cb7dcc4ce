//! Points that are made from a seed.
//!
//! - `making`: point sets for what is asked
#![tactic(auto)]

mod making;

pub use making::make;
