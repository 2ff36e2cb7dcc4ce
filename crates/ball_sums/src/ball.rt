//! The size and the centre of the ball through the point that the sums are seen from, around the weighted mean of all points.
ghost use Rattle.std.specs.Prelude.{◌≡◌, ◌≤◌, ◌^◌, ◌+ℤ◌, ◌*ℤ◌, pos};
ghost use Rattle.integers.specs.Size.{Size};
ghost use Rattle.bounds_model.specs.Space.{SamePlace, flat_ratio};
ghost use Rattle.bounds_model.specs.Fractions.{SameValue};
ghost use Rattle.bounds_model.specs.Ranges.{IsNumber, IsFraction, IsPlaneRatio, IsSpaceRatio};
ghost use Rattle.ball_sums.specs.Sums.{IsInRange};
ghost use Rattle.ball_sums.specs.Means.{mean_size, plane_mean, space_mean};

use crate::Sums;
use bounded_coords::{Point2, Point3};
use exact_fractions::{Frac, Homog2, Homog3};

impl Sums {
    /// Half the weighted mean of the squared lengths: the squared radius where all weighted points are on the ball.
    pub fn size(&self) -> Frac
        requires some { 1 ≤ self.now.weight }
        requires weight { self.now.weight ≤ 2 ^ 92 }
        requires second_moment { self.now.second_moment ≤ 2 ^ 122 }
        ensures value { SameValue result (mean_size self.now) }
        ensures lowest { IsFraction result }
    {
        Frac::new(self.second_moment, 2 * self.weight)
    }

    /// The weighted mean of points of the plane, by the point that they are seen from.
    pub fn plane_centre(&self, from: &Point2) -> Homog2
        requires some { 1 ≤ self.now.weight }
        requires range { IsInRange 2 self.now }
        ensures place { SamePlace (flat_ratio result) (flat_ratio (plane_mean from.now self.now)) }
        ensures lowest { IsPlaneRatio result }
    {
        let x = mean(self.weight, from.x(), self.pull.x);
        let y = mean(self.weight, from.y(), self.pull.y);
        Homog2::new(x, y, self.weight as i128)
    }

    /// The weighted mean of points of space, by the point that they are seen from.
    pub fn space_centre(&self, from: &Point3) -> Homog3
        requires some { 1 ≤ self.now.weight }
        requires range { IsInRange 3 self.now }
        ensures place { SamePlace result (space_mean from.now self.now) }
        ensures lowest { IsSpaceRatio result }
    {
        let x = mean(self.weight, from.x(), self.pull.x);
        let y = mean(self.weight, from.y(), self.pull.y);
        let z = mean(self.weight, from.z(), self.pull.z);
        Homog3::new(x, y, z, self.weight as i128)
    }
}

/// A coordinate of the weighted mean, times the sum of the weights.
fn mean(weight: u128, from: i32, pull: i128) -> i128
    requires weight { weight ≤ 2 ^ 92 }
    requires from { Size 200000 from }
    requires pull { Size (2 ^ 111) pull }
    ensures value { result ≡ pos weight *ℤ from +ℤ pull }
    ensures number { IsNumber result }
{
    weight as i128 * from as i128 + pull
}
