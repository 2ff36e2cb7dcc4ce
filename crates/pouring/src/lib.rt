//! A point file in the text form, poured into its reader as it is read.
#![tactic(auto)]

mod pieces;

pub use pieces::pour;
