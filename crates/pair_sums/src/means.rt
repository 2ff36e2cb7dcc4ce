//! The squared distance, the nearest points and the direction that the sums give, where the weighted differences hold the distance.
ghost use Rattle.std.specs.Prelude.{◌≡◌, ◌≤◌, ◌<◌, ◌^◌, ◌≤ℤ◌, pos, nat_abs, [], ◌∷◌};
ghost use Rattle.bounds_model.specs.Space.{vector, dot, SamePlace};
ghost use Rattle.bounds_model.specs.Fractions.{SameValue};
ghost use Rattle.bounds_model.specs.Ranges.{IsFraction, IsSpaceRatio};
ghost use Rattle.bounds_model.specs.DistanceAnswer.{IsDirectionOf};
ghost use Rattle.kernel_laws.specs.Vectors.{sum_of};
ghost use Rattle.kernel_laws.specs.Limits.{IsVectorWithin};
ghost use Rattle.answers.specs.Answers.{space_vector_of};
ghost use Rattle.pair_sums.specs.Sums.{IsInRange, pull_of};
ghost use Rattle.pair_sums.specs.Means.{mean_of, product_ratio, IsCommonFactor};

use crate::PairSums;
use answers::Dir3;
use bounded_coords::Point3;
use exact_fractions::{Frac, Homog3, gcd, quotient};
use kernel_laws::Sum;

impl PairSums {
    /// The product of the pull with the vector from q to p, over the sum of the weights: the squared distance, where all
    /// differences have this product.
    pub fn size(&self, p: &Point3, q: &Point3) -> Frac
        requires some { 1 ≤ self.now.weight }
        requires range { IsInRange self.now }
        requires not_below { pos 0 ≤ℤ dot (pull_of self.now) (vector q.now p.now) }
        ensures value { SameValue result (product_ratio self.now p.now q.now) }
        ensures lowest { IsFraction result }
    {
        Frac::new(self.product(p, q) as u128, self.weight)
    }

    /// The weighted mean of the first points.
    pub fn first_mean(&self) -> Homog3
        requires some { 1 ≤ self.now.weight }
        requires range { IsInRange self.now }
        ensures place { SamePlace result (mean_of self.now.weight self.now.first) }
        ensures lowest { IsSpaceRatio result }
    {
        mean(self.weight, self.first)
    }

    /// The weighted mean of the second points.
    pub fn second_mean(&self) -> Homog3
        requires some { 1 ≤ self.now.weight }
        requires range { IsInRange self.now }
        ensures place { SamePlace result (mean_of self.now.weight self.now.second) }
        ensures lowest { IsSpaceRatio result }
    {
        mean(self.weight, self.second)
    }

    /// The pull over the common factor of its entries, or 0 where it is 0.
    pub fn direction(&self) -> Dir3
        requires { IsInRange self.now }
        ensures direction { IsDirectionOf (pull_of self.now) (space_vector_of result) }
        ensures limit { IsVectorWithin (2 ^ 80) (space_vector_of result) }
    {
        lowest(self.pull())
    }
}

/// A weighted sum over the sum of the weights.
fn mean(weight: u128, sum: Sum) -> Homog3
    requires some { 1 ≤ weight }
    requires weight { weight ≤ 2 ^ 66 }
    requires sum { IsVectorWithin (2 ^ 79) (sum_of sum) }
    ensures place { SamePlace result (mean_of weight sum) }
    ensures lowest { IsSpaceRatio result }
{
    Homog3::new(sum.x, sum.y, sum.z, weight as i128)
}

/// A vector over the common factor of its entries, or 0 where it is 0.
fn lowest(v: Sum) -> Dir3
    requires { IsVectorWithin (2 ^ 80) (sum_of v) }
    ensures direction { IsDirectionOf (sum_of v) (space_vector_of result) }
    ensures limit { IsVectorWithin (2 ^ 80) (space_vector_of result) }
{
    let factor = common_factor(v);
    if factor == 0 {
        return Dir3 { x: 0, y: 0, z: 0 };
    }
    Dir3 {
        x: quotient(v.x, factor),
        y: quotient(v.y, factor),
        z: quotient(v.z, factor),
    }
}

/// The greatest common divisor of the entries of a vector. That of zeros is 0.
fn common_factor(v: Sum) -> u128
    ensures { IsCommonFactor (v.x ∷ v.y ∷ v.z ∷ []) result }
{
    gcd(
        v.x.unsigned_abs(),
        gcd(v.y.unsigned_abs(), v.z.unsigned_abs()),
    )
}
