//! Directions in machine numbers.
ghost use Rattle.std.specs.Prelude.{◌≡◌, ◌↔◌, ◌^◌, IsTrue};
ghost use Rattle.bounds_model.specs.Numbers.{IsWithin};
ghost use Rattle.bounds_model.specs.Plane.{dot, cross, quarter_turn};
ghost use Rattle.bounds_model.specs.Fans.{IsShort};
ghost use Rattle.fan_test.specs.Directions.{direction_of};

use bounded_coords::Point2;

/// A direction, each coordinate from -400000 to 400000 where it is used.
#[derive(Clone, Copy, Debug, PartialEq, Eq)]
pub struct Direction {
    pub x: i64,
    pub y: i64,
}

impl Direction {
    /// Whether it is this direction.
    pub(crate) fn is(self, other: Direction) -> bool
        ensures { IsTrue result ↔ (direction_of self ≡ direction_of other) }
    {
        self.x == other.x && self.y == other.y
    }

    /// How far out the point is in this direction.
    pub(crate) fn dot(self, p: Point2) -> i64
        requires { IsShort (direction_of self) }
        ensures value { result ≡ dot (direction_of self) p }
        ensures small { IsWithin (2 ^ 38) result }
    {
        self.x * p.x() as i64 + self.y * p.y() as i64
    }

    /// Above 0 where the other direction is to the left of this one.
    pub(crate) fn cross(self, other: Direction) -> i64
        requires first { IsShort (direction_of self) }
        requires second { IsShort (direction_of other) }
        ensures { result ≡ cross (direction_of self) (direction_of other) }
    {
        self.x * other.y - self.y * other.x
    }

    /// The direction turned left by a right angle.
    pub(crate) fn turned(self) -> Direction
        requires { IsShort (direction_of self) }
        ensures value { direction_of result ≡ quarter_turn (direction_of self) }
        ensures short { IsShort (direction_of result) }
    {
        Direction {
            x: -self.y,
            y: self.x,
        }
    }
}
