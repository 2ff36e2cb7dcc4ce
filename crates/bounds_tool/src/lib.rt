//! The command line tool as a library: from words, files and sinks to the status of a run. The words are read by `command_line`.
//!
//! - `command`: the top call, with the contract of the whole program
//! - `status`: how a run ends
//! - `reading`: the files that a command names
//! - `demo_text`: what is told of points made from a seed; a size alone
//! - `output`: what a run writes
//! - `laws`: what the contract comes to for two runs
//! - `cause`, `telling`: why there is no whole output, and the line that says so
#![tactic(auto)]

mod cause;
mod command;
mod demo_text;
pub mod laws;
mod output;
mod reading;
mod status;
mod telling;

pub use command::run;
pub use command_line::{Name, Opt, Task, UsageFault, read_words};
pub use demo_points::make;
pub use pouring::pour;
pub use solving::{SolveFault, solve};
pub use status::Status;
