//! Tools for texts as bytes, for the crates that read them.
//!
//! - `cuts`: the first and the last index of a byte, and what stands before and after it
//! - `digits`: the number that the digits at the start of a text write
//! - `numerals`: the number that a whole word writes
#![tactic(auto)]

mod cuts;
mod digits;
mod numerals;

pub use cuts::{cut, index_of, last_index_of, parted};
pub use digits::{cut_digits, leading_number};
pub use numerals::{LIMIT, natural_number, whole_number};
