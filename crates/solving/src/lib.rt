//! The answer to what is asked, of any kind.
//!
//! - `fault`: why there is none
//! - `question`: the one call that answers every question
#![tactic(auto)]

mod fault;
mod question;

pub use fault::SolveFault;
pub use question::solve;
