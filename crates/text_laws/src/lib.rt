//! Laws and worked examples of the texts that `bounds_model` defines.
//!
//! - `answer_text`: a text and the answer that it spells determine each other; none is the beginning of another; each is short.
//!   Each law is the contract of an empty function.
//! - In `proofs/`: worked answers with their texts, refused texts with their causes, demo points and error lines, by computation.
#![tactic(auto)]

pub mod answer_text;
