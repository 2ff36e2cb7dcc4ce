//! The checker of distances: it looks at the points and the answer alone, and says yes exactly where the weighted pairs show that the hulls
//! are as far apart as the answer says.
//!
//! - `distances`: the checker
#![tactic(auto)]

mod distances;

pub use distances::check_distance;
