//! The checker of empty rectangles: it looks at the points and the answer alone, and says yes exactly where each side rests on what the
//! answer names and no rectangle without a point inside is larger.
//!
//! - `empty_rectangles`: the checker
#![tactic(auto)]

mod empty_rectangles;

pub use empty_rectangles::check_empty;
