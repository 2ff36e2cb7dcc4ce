//! What passes is best: the checker's finitely many conditions on an answer imply that its object fits the points, that the
//! printed size is the object's in lowest terms, and that no object of the kind is better, whatever its denominators.
//!
//! Each kind has a module with its law, the contract of an empty function over the definitions of `bounds_model` alone, for
//! all points and answers, with no other premise. [`answer`] has the law of all kinds together. `docs/ARGUMENTS.md` tells each
//! argument in words; in `proofs/` the files `..Law` follow it.
#![tactic(auto)]

pub mod annulus;
pub mod answer;
pub mod centres;
pub mod circle;
pub mod distance;
pub mod empty_rectangle;
pub mod furthest;
pub mod kgon;
pub mod parallelogram;
pub mod rectangle;
pub mod shell;
pub mod sphere;
pub mod strip;
