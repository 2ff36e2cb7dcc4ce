//! The words of a command line, from the list of words to the task that they call for.
//!
//! - `words`: what whole lists of words call for
//! - `parsing`: the command as `clap` sees it, and what it finds in the words
//! - `options`: the values of options, needed or not
//! - `values`: numbers, boxes and forms, as words write them
//! - `kind`: the kinds of questions that are answered
//! - `task`, `fault`: what comes of the words
#![tactic(auto)]

mod fault;
mod kind;
mod options;
mod parsing;
mod task;
mod values;
mod words;

pub use fault::{Opt, UsageFault};
pub use task::{Name, Task};
pub use words::read_words;
