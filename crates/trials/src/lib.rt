//! Public calls that no command makes, or not with such values: numbers, signs, answers and texts at their limits, files in memory
//! asked otherwise than a run asks them, and streams of the system that take or give less than they are asked for.
//!
//! A crate with tests is proved twice. So what tests of all crates are left stand here, a table for each subject, and what
//! a command can show is a row of `rows`.
//!
//! - `numbers`: divisors, fractions and places
//! - `signs`: on which side a point lies
//! - `verdicts`: answers that no text spells, and answers of another kind
//! - `texts`: answers that are read and printed again
//! - `files`: files and sinks in memory, and `watched`, files of which the opens are counted
//! - `streams`: what files and streams of the system do
#![tactic(auto)]

#[cfg(test)]
mod files;
#[cfg(test)]
mod numbers;
#[cfg(test)]
mod signs;
#[cfg(test)]
mod streams;
#[cfg(test)]
mod texts;
#[cfg(test)]
mod verdicts;
#[cfg(test)]
mod watched;
