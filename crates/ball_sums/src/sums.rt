//! Sums over weighted points.
ghost use Rattle.std.specs.Prelude.{◌≡◌, ◌⊎◌, ◌+◌, ◌*◌, ◌<◌, ◌≤◌, ◌^◌, ◌+ℤ◌, ◌*ℤ◌, pos, MatchOption};
ghost use Rattle.integers.specs.Size.{Size};
ghost use Rattle.bounds_model.specs.Space.{squared_length};
ghost use Rattle.kernel_laws.specs.Vectors.{vector_of};
ghost use Rattle.kernel_laws.specs.Limits.{IsDifference, ball_limit};
ghost use Rattle.ball_sums.specs.Sums.{IsInRange, Adds, squared_length_limit};

use kernel_laws::{Kernel, Sum, Vector};

/// Sums over weighted points, as seen from one point.
#[derive(Clone, Copy, Debug, PartialEq, Eq)]
pub struct Sums {
    /// The sum of the weights.
    pub weight: u128,
    /// The weighted sum of the vectors to the points.
    pub pull: Sum,
    /// The weighted sum of their squared lengths.
    pub second_moment: u128,
}

impl Sums {
    /// Over no points.
    pub fn none() -> Sums
        ensures { result ≡ record { weight = 0; pull = record { x = pos 0; y = pos 0; z = pos 0 }; second_moment = 0 } }
    {
        Sums {
            weight: 0,
            pull: Sum { x: 0, y: 0, z: 0 },
            second_moment: 0,
        }
    }

    /// With one point more, which has this weight and vector.
    pub fn with<K: Kernel>(self, kernel: &K, weight: u128, to: Vector) -> Sums
        requires range { IsInRange K.DIM self }
        requires vector { IsDifference K.DIM (vector_of to) }
        requires limit { self.weight + weight ≤ ball_limit K.DIM }
        ensures range { IsInRange K.DIM result }
        ensures adds { Adds weight (vector_of to) self result }
    {
        Sums {
            weight: self.weight + weight,
            pull: Sum {
                x: plus(self.pull.x, weight, to.x),
                y: plus(self.pull.y, weight, to.y),
                z: plus(self.pull.z, weight, to.z),
            },
            second_moment: self.second_moment + weight * squared(kernel, to),
        }
    }

    /// With one point more, of any weight. None where it has no weight, or the weights come past their limit.
    pub fn checked_with<K: Kernel>(self, kernel: &K, weight: u128, to: Vector) -> Option<Sums>
        requires range { IsInRange K.DIM self }
        requires vector { IsDifference K.DIM (vector_of to) }
        ensures { MatchOption result ((weight ≡ 0) ⊎ (ball_limit K.DIM < self.weight + weight))
            (λ s. (1 ≤ weight) × IsInRange K.DIM s × Adds weight (vector_of to) self s) }
    {
        if weight == 0 || weight > weight_limit::<K>() - self.weight {
            return None;
        }
        Some(self.with(kernel, weight, to))
    }
}

/// The greatest sum of the weights.
fn weight_limit<K: Kernel>() -> u128
    ensures { result ≡ ball_limit K.DIM }
{
    if K::DIM == 2 { 1 << 80 } else { 1 << 92 }
}

/// A coordinate of a weighted sum, with one vector more.
fn plus(sum: i128, weight: u128, coordinate: i64) -> i128
    requires sum { Size (2 ^ 111) sum }
    requires weight { weight ≤ 2 ^ 92 }
    requires coordinate { Size 400000 coordinate }
    ensures { result ≡ sum +ℤ pos weight *ℤ coordinate }
{
    sum + weight as i128 * coordinate as i128
}

/// The squared length of a vector.
fn squared<K: Kernel>(kernel: &K, v: Vector) -> u128
    requires { IsDifference K.DIM (vector_of v) }
    ensures value { pos result ≡ squared_length (vector_of v) }
    ensures limit { result ≤ squared_length_limit K.DIM }
{
    kernel.dot(v, v) as u128
}
