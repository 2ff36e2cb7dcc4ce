//! The bounding box of points.
ghost use Rattle.std.specs.Prelude.{◌≡◌, ◌≤◌, ◌%◌, ◌/◌, ◌==◌, ◌+ℤ◌, ◌-ℤ◌, pos, if◌then◌else◌};
ghost use Rattle.bounds_model.specs.Plane.{IsInPlane};
ghost use Rattle.corner_squares.specs.Extents.{Sees, Adds, IsPlaneExtent};

use crate::extent::Extent;
use crate::square::Square;
use bounded_coords::Point2;

/// The bounding box of points, with the numbers of points on its sides.
#[derive(Clone, Copy, Debug, PartialEq, Eq)]
pub struct Bounds {
    /// From the left side to the right one.
    pub across: Extent,
    /// From the lower side to the upper one.
    pub up: Extent,
}

impl Bounds {
    /// Of the point of this number alone.
    fn new(p: &Point2, number: u32) -> Bounds
        ensures across { result.across ≡ record { low = p.now.x; high = p.now.x; low_at = number; high_at = number } }
        ensures up { result.up ≡ record { low = p.now.y; high = p.now.y; low_at = number; high_at = number } }
        ensures plane { IsInPlane p.now }
    {
        Bounds {
            across: Extent::new(p.x(), number),
            up: Extent::new(p.y(), number),
        }
    }

    /// With the point of this number.
    fn with(self, p: &Point2, number: u32) -> Bounds
        ensures across { Sees self.across p.now.x number result.across }
        ensures up { Sees self.up p.now.y number result.up }
        ensures plane { IsInPlane p.now }
    {
        Bounds {
            across: self.across.with(p.x(), number),
            up: self.up.with(p.y(), number),
        }
    }

    /// Of what was found before, if anything, and of the point of this number.
    pub fn grown(found: Option<Bounds>, p: &Point2, number: u32) -> Bounds
        ensures adds { Adds found p.now number result }
        ensures plane { IsInPlane p.now }
    {
        match found {
            Some(bounds) => bounds.with(p, number),
            None => Bounds::new(p, number),
        }
    }

    /// The square of this side in a corner of the box, with its own same corner there: 0 is lower left, 1 lower right, 2 upper
    /// left, 3 upper right. It may reach past the box.
    pub fn corner_square(self, corner: u8, side: u32) -> Square
        requires across { IsPlaneExtent self.across }
        requires up { IsPlaneExtent self.up }
        requires side { side ≤ 2000000 }
        ensures left { result.left ≡ if corner % 2 == 0 then self.across.low else (self.across.high -ℤ pos side) }
        ensures bottom { result.bottom ≡ if corner / 2 == 0 then self.up.low else (self.up.high -ℤ pos side) }
        ensures side { result.side ≡ side }
    {
        Square {
            left: self.across.piece(corner % 2 == 0, side),
            bottom: self.up.piece(corner / 2 == 0, side),
            side,
        }
    }
}
