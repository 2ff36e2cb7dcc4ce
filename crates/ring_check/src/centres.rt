//! Centres, and the levels of points around them.
ghost use Rattle.std.specs.Prelude.{◌≡◌, ◌↔◌, ◌^◌, ◌≤ℤ◌, pos, IsTrue};
ghost use Rattle.integers.specs.Size.{Size};
ghost use Rattle.bounds_model.specs.Numbers.{IsWithin};
ghost use Rattle.bounds_model.specs.Space.{squared_length as squared_length_of, flat_ratio};
ghost use Rattle.bounds_model.specs.Ranges.{IsPlaneRatio, IsSpaceRatio};
ghost use Rattle.bounds_model.specs.ShellAnswer.{power, squared_radius_at};
ghost use Rattle.kernel_laws.specs.Vectors.{vector_of};
ghost use Rattle.kernel_laws.specs.Limits.{IsVectorWithin};
ghost use Rattle.ring_check.specs.Rings.{ratio_of, IsWithinLimits, IsCentre, HasLevelSize, HasValue, square_limit};

use crate::values::has_value;
use exact_fractions::{Frac, Homog2, Homog3};
use kernel_laws::Vector;

/// The centre (x/w, y/w, z/w). In the plane z is 0.
#[derive(Clone, Copy)]
pub(crate) struct Centre {
    pub(crate) x: i128,
    pub(crate) y: i128,
    pub(crate) z: i128,
    pub(crate) w: i128,
}

impl Centre {
    /// The same centre, at height 0.
    pub(crate) fn in_plane(c: &Homog2) -> Centre
        ensures value { ratio_of result ≡ flat_ratio c.now }
        ensures range { IsPlaneRatio c.now }
    {
        Centre {
            x: c.x(),
            y: c.y(),
            z: 0,
            w: c.w(),
        }
    }

    /// The same centre.
    pub(crate) fn in_space(c: &Homog3) -> Centre
        ensures value { ratio_of result ≡ c.now }
        ensures range { IsSpaceRatio c.now }
    {
        Centre {
            x: c.x(),
            y: c.y(),
            z: c.z(),
            w: c.w(),
        }
    }

    /// Whether the denominator and the magnitudes of the numerators are within limits.
    pub(crate) fn is_within(self, denominator: u128, numerator: u128) -> bool
        ensures { IsTrue result ↔ IsWithinLimits denominator numerator (ratio_of self) }
    {
        if !is_within(self.w, denominator) {
            return false;
        }
        if !is_within(self.x, numerator) {
            return false;
        }
        if !is_within(self.y, numerator) {
            return false;
        }
        is_within(self.z, numerator)
    }

    /// A point's level: w times its squared distance from the centre, less a term that is the same for all points.
    pub(crate) fn level(self, p: Vector) -> i128
        requires centre { IsCentre (2 ^ 50) (ratio_of self) }
        requires point { IsVectorWithin 200000 (vector_of p) }
        ensures value { result ≡ power (ratio_of self) (vector_of p) }
        ensures size { HasLevelSize (ratio_of self) result }
    {
        let square = self.w * squared_length(p) as i128;
        let across = self.x * p.x as i128 + self.y * p.y as i128;
        square - 2 * (across + self.z * p.z as i128)
    }

    /// Whether this is the squared distance from the centre of the points at a level.
    pub(crate) fn has_squared_radius(self, radius: &Frac, level: i128) -> bool
        requires centre { IsCentre (2 ^ 42) (ratio_of self) }
        requires level { Size (2 ^ 80) level }
        ensures { IsTrue result ↔ HasValue radius.now (squared_radius_at (ratio_of self) level) }
    {
        let (x, y, z, w) = (self.x, self.y, self.z, self.w);
        has_value(radius, w * level + (x * x + y * y + z * z), w * w)
    }
}

/// Whether the magnitude of a number is within a limit.
fn is_within(z: i128, limit: u128) -> bool
    ensures { IsTrue result ↔ IsWithin limit z }
{
    z.unsigned_abs() <= limit
}

/// A point's squared distance from the origin.
pub(crate) fn squared_length(p: Vector) -> i64
    requires { IsVectorWithin 200000 (vector_of p) }
    ensures value { result ≡ squared_length_of (vector_of p) }
    ensures low { pos 0 ≤ℤ result }
    ensures high { result ≤ℤ pos square_limit }
{
    p.x * p.x + p.y * p.y + p.z * p.z
}
