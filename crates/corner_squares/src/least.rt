//! The least point, which the first of four squares covers.
use crate::square::Square;
use bounded_coords::Point2;

/// The place of the least point: the leftmost one, and the lowest of these.
#[derive(Clone, Copy, Debug, PartialEq, Eq)]
pub struct Least {
    /// How far to the right it is.
    pub x: i32,
    /// How far up it is.
    pub y: i32,
}

impl Least {
    ghost use Rattle.std.specs.Prelude.{◌≡◌, ◌≤◌, ◌-ℤ◌, pos};
    ghost use Rattle.bounds_model.specs.Numbers.{IsWithin};
    ghost use Rattle.bounds_model.specs.Plane.{plane_limit};
    ghost use Rattle.corner_squares.specs.LeastPoints.{point_of, IsLesser};

    /// The place of a point.
    pub fn of(p: &Point2) -> Least
        ensures place { point_of result ≡ p.now }
        ensures x { IsWithin plane_limit result.x }
        ensures y { IsWithin plane_limit result.y }
    {
        Least { x: p.x(), y: p.y() }
    }

    /// The lesser of this place and that of a point.
    pub fn or(self, p: &Point2) -> Least
        requires x { IsWithin plane_limit self.x }
        requires y { IsWithin plane_limit self.y }
        ensures lesser { IsLesser self p.now result }
        ensures x { IsWithin plane_limit result.x }
        ensures y { IsWithin plane_limit result.y }
    {
        if p.x() < self.x {
            return Least::of(p);
        }
        if p.x() > self.x {
            return self;
        }
        if p.y() < self.y {
            return Least::of(p);
        }
        self
    }

    /// The lowest height at which a square of this side reaches the place.
    pub fn reach(self, side: u32) -> i32
        requires y { IsWithin plane_limit self.y }
        requires side { side ≤ 2000000 }
        ensures { result ≡ (self.y -ℤ pos side) }
    {
        self.y - side as i32
    }

    /// The square of this side at this height, with its left side at the least point.
    pub fn square(self, height: i32, side: u32) -> Square
        ensures { result ≡ record { left = self.x; bottom = height; side = side } }
    {
        Square {
            left: self.x,
            bottom: height,
            side,
        }
    }
}
