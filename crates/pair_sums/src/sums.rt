//! Sums over weighted pairs of points.
ghost use Rattle.std.specs.Prelude.{◌≡◌, ◌⊎◌, ◌+◌, ◌<◌, ◌≤◌, ◌^◌, ◌+ℤ◌, ◌*ℤ◌, pos, MatchOption};
ghost use Rattle.integers.specs.Size.{Size};
ghost use Rattle.bounds_model.specs.Space.{vector, plus as added, times, dot};
ghost use Rattle.kernel_laws.specs.Vectors.{vector_of, sum_of};
ghost use Rattle.kernel_laws.specs.Limits.{IsVectorWithin};
ghost use Rattle.pair_sums.specs.Sums.{IsInRange, Adds, pull_of};

use bounded_coords::Point3;
use kernel_laws::{Kernel, Space, Sum, Vector};

/// Sums over weighted pairs of points, the first of each from one set and the second from another.
#[derive(Clone, Copy, Debug, PartialEq, Eq)]
pub struct PairSums {
    /// The sum of the weights.
    pub weight: u128,
    /// The weighted sum of the first points.
    pub first: Sum,
    /// The weighted sum of the second points.
    pub second: Sum,
}

/// The greatest sum of the weights.
const WEIGHT_LIMIT: u128 = 1 << 66;

impl PairSums {
    /// Over no pairs.
    pub fn none() -> PairSums
        ensures { result ≡ record {
          weight = 0;
          first = record { x = pos 0; y = pos 0; z = pos 0 };
          second = record { x = pos 0; y = pos 0; z = pos 0 };
        } }
    {
        let nothing = Sum { x: 0, y: 0, z: 0 };
        PairSums {
            weight: 0,
            first: nothing,
            second: nothing,
        }
    }

    /// With one pair more, which has this weight.
    pub fn with(self, weight: u128, p: &Point3, q: &Point3) -> PairSums
        requires range { IsInRange self }
        requires limit { self.weight + weight ≤ 2 ^ 66 }
        ensures range { IsInRange result }
        ensures adds { Adds weight p.now q.now self result }
    {
        PairSums {
            weight: self.weight + weight,
            first: plus(self.first, weight, p),
            second: plus(self.second, weight, q),
        }
    }

    /// With one pair more, of any weight. None where it has no weight, or the weights come past their limit.
    pub fn checked_with(self, weight: u128, p: &Point3, q: &Point3) -> Option<PairSums>
        requires { IsInRange self }
        ensures { MatchOption result ((weight ≡ 0) ⊎ (2 ^ 66 < self.weight + weight))
            (λ s. (1 ≤ weight) × IsInRange s × Adds weight p.now q.now self s) }
    {
        if weight == 0 || weight > WEIGHT_LIMIT - self.weight {
            return None;
        }
        Some(self.with(weight, p, q))
    }

    /// The vector from the weighted sum of the second points to that of the first: the weighted sum of the differences.
    pub fn pull(&self) -> Sum
        requires { IsInRange self.now }
        ensures value { sum_of result ≡ pull_of self.now }
        ensures limit { IsVectorWithin (2 ^ 80) (sum_of result) }
    {
        Sum {
            x: self.first.x - self.second.x,
            y: self.first.y - self.second.y,
            z: self.first.z - self.second.z,
        }
    }

    /// The product of the pull with the vector from a second point to a first.
    pub fn product(&self, p: &Point3, q: &Point3) -> i128
        requires { IsInRange self.now }
        ensures value { result ≡ dot (pull_of self.now) (vector q.now p.now) }
        ensures limit { Size (2 ^ 96) result }
    {
        along(self.pull(), Space.diff(q, p))
    }
}

/// A weighted sum with one point more.
fn plus(sum: Sum, weight: u128, p: &Point3) -> Sum
    requires sum { IsVectorWithin (2 ^ 79) (sum_of sum) }
    requires weight { weight ≤ 2 ^ 66 }
    ensures sum { sum_of result ≡ added (sum_of sum) (times (pos weight) p.now) }
    ensures point { IsVectorWithin 8000 p.now }
{
    Sum {
        x: more(sum.x, weight, p.x()),
        y: more(sum.y, weight, p.y()),
        z: more(sum.z, weight, p.z()),
    }
}

/// A coordinate of a weighted sum, with one point more.
fn more(sum: i128, weight: u128, coordinate: i32) -> i128
    requires sum { Size (2 ^ 79) sum }
    requires weight { weight ≤ 2 ^ 66 }
    requires coordinate { Size 8000 coordinate }
    ensures { result ≡ sum +ℤ pos weight *ℤ coordinate }
{
    sum + weight as i128 * coordinate as i128
}

/// The product of a weighted sum of differences with a difference.
fn along(pull: Sum, v: Vector) -> i128
    requires pull { IsVectorWithin (2 ^ 80) (sum_of pull) }
    requires vector { IsVectorWithin 16000 (vector_of v) }
    ensures value { result ≡ dot (sum_of pull) (vector_of v) }
    ensures limit { Size (2 ^ 96) result }
{
    pull.x * v.x as i128 + pull.y * v.y as i128 + pull.z * v.z as i128
}
