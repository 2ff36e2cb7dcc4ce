//! Closed squares, and the points that they contain.
ghost use Rattle.std.specs.Prelude.{◌↔◌, pos, ◌+ℤ◌, ◌≤ℤ◌, IsTrue};
ghost use Rattle.bounds_model.specs.CentresAnswer.{contains};
ghost use Rattle.corner_squares.specs.Squares.{square_of, IsCovered};

use bounded_coords::Point2;

/// A closed square by its lower left corner. It may reach past the bounds of points.
#[derive(Clone, Copy, Debug, Default, PartialEq, Eq)]
pub struct Square {
    /// The least first coordinate of the square.
    pub left: i32,
    /// The least second coordinate.
    pub bottom: i32,
    /// The length of a side.
    pub side: u32,
}

impl Square {
    /// Whether the square contains the point: its edges are part of it.
    pub fn contains(&self, p: &Point2) -> bool
        ensures { IsTrue result ↔ IsTrue (contains (square_of self.now) p.now) }
    {
        is_from(self.left, self.side, p.x()) && is_from(self.bottom, self.side, p.y())
    }
}

/// Whether the value is at least `low`, and at most `length` above it.
fn is_from(low: i32, length: u32, value: i32) -> bool
    ensures { IsTrue result ↔ ((low ≤ℤ value) × (value ≤ℤ (low +ℤ pos length))) }
{
    low <= value && value.abs_diff(low) <= length
}

/// Whether one of the squares contains the point.
pub fn any_contains(squares: &[Square], p: &Point2) -> bool
    ensures { IsTrue result ↔ IsCovered squares.now p.now }
{
    squares.iter().any(|square| square.contains(p))
}
