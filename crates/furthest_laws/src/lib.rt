//! Laws of furthest corners: the distances of a hull's corners as a table, whose rows have their greatest values further and further on.
//!
//! - `laws`: statements on the definitions alone, each the contract of an empty function
//! - In `proofs/`, `Crossing` and `HullRows` show that crossing pairs of corners are far apart, `RowLaws` what follows for a table of
//!   such distances, `Named` that the first furthest corner is the first greatest of its row, and `Diameters` that no point is farther
//!   from another than some corner is.
#![tactic(auto)]

pub mod laws;
