//! Squares that are to cover points: those that are placed, what they leave over, and the leaves below them which show that no
//! squares cover the points.
//!
//! - `square`: a closed square, and the points that squares contain
//! - `extent`: the least and the greatest coordinate, and where they stand
//! - `bounds`: the bounding box of points, and the squares in its corners
//! - `least`: the least point, and a square that has its left side there
//! - `answer_squares`: the radius and the centres of squares
#![tactic(auto)]

mod answer_squares;
mod bounds;
mod extent;
mod least;
mod square;

pub use answer_squares::{filled_up, square_centres, square_radius};
pub use bounds::Bounds;
pub use extent::Extent;
pub use least::Least;
pub use square::{Square, any_contains};
