//! Laws and worked examples of the definitions in `bounds_model`, which show that they are the right ones.
//!
//! - `laws`: statements on the definitions alone, each the contract of an empty function: best answers have one size, in any
//!   order of the points; corners are unique; a plain fan has few directions, and short ones.
//! - In `proofs/`, the files `Decide..` have a test for each condition, which also counts the parts that do not hold, and the
//!   files `Example..` run them: worked objects and answers hold, and spoilt ones do not. `by_one_failure` shows that a spoilt
//!   one fails in one part alone, so that a definition without that part would let it through.
#![tactic(auto)]

pub mod laws;
