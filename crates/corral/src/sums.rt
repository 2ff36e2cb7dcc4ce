//! What slacks are computed from.
ghost use Rattle.std.specs.Prelude.{◌≡◌, ◌↔◌, ◌^◌, ◌+ℤ◌, pos, IsTrue};
ghost use Rattle.integers.specs.Size.{Size};
ghost use Rattle.bounds_model.specs.Space.{origin, plus, times, dot as product};
ghost use Rattle.kernel_laws.specs.Vectors.{vector_of, sum_of};
ghost use Rattle.kernel_laws.specs.Limits.{IsVectorWithin, difference_limit};
ghost use Rattle.corral.specs.Moments.{slack_at, AreWithin, AreNarrow};

use kernel_laws::{Kernel, Potential, Sum, Vector};

/// The greatest sum of weights, and the greatest coordinate of a weighted sum, for which slacks are computed in 64 bits.
const MOST_NARROW_MASS: u128 = 1 << 20;

const MOST_NARROW_SUM: u128 = 1 << 40;

/// The sum of some weights, and the weighted sum of their vectors.
#[derive(Clone, Copy, Debug)]
pub(crate) struct Moments {
    pub(crate) mass: i128,
    pub(crate) sum: Sum,
}

impl Moments {
    /// Of no vectors.
    pub(crate) fn none() -> Moments
        ensures mass { result.mass ≡ pos 0 }
        ensures sum { sum_of result.sum ≡ origin }
    {
        Moments {
            mass: 0,
            sum: Sum { x: 0, y: 0, z: 0 },
        }
    }

    /// With one vector more.
    pub(crate) fn with(self, weight: i128, v: Vector) -> Moments
        requires mass { Size (2 ^ 92) self.mass }
        requires sum { IsVectorWithin (2 ^ 112) (sum_of self.sum) }
        requires weight { Size (2 ^ 92) weight }
        requires vector { IsVectorWithin 400000 (vector_of v) }
        ensures mass { result.mass ≡ (weight +ℤ self.mass) }
        ensures sum { sum_of result.sum ≡ plus (times weight (vector_of v)) (sum_of self.sum) }
    {
        Moments {
            mass: self.mass + weight,
            sum: Sum {
                x: self.sum.x + weight * v.x as i128,
                y: self.sum.y + weight * v.y as i128,
                z: self.sum.z + weight * v.z as i128,
            },
        }
    }

    /// The product of a vector with the weighted sum.
    pub(crate) fn along<K: Kernel, T: Potential>(self, v: Vector) -> i128
        requires within { AreWithin T.SQUARE K.DIM self }
        requires vector { IsVectorWithin (difference_limit K.DIM) (vector_of v) }
        ensures { result ≡ product (vector_of v) (sum_of self.sum) }
    {
        if self.are_narrow() {
            return self.narrow_along(v) as i128;
        }
        self.wide_along::<K, T>(v)
    }

    /// The slack of a vector.
    pub(crate) fn slack<K: Kernel, T: Potential>(self, kernel: &K, v: Vector) -> i128
        requires within { AreWithin T.SQUARE K.DIM self }
        requires vector { IsVectorWithin (difference_limit K.DIM) (vector_of v) }
        ensures { result ≡ slack_at T.SQUARE self (vector_of v) }
    {
        if self.are_narrow() {
            return self.narrow_slack::<T>(v) as i128;
        }
        self.wide_slack::<K, T>(kernel, v)
    }

    /// Whether slacks fit 64 bits. Sums of one or two vectors mostly do.
    fn are_narrow(self) -> bool
        ensures { IsTrue result ↔ AreNarrow self }
    {
        if !is_within(self.mass, MOST_NARROW_MASS) {
            return false;
        }
        if !is_within(self.sum.x, MOST_NARROW_SUM) {
            return false;
        }
        if !is_within(self.sum.y, MOST_NARROW_SUM) {
            return false;
        }
        is_within(self.sum.z, MOST_NARROW_SUM)
    }

    /// The product with the weighted sum, in 64 bits.
    fn narrow_along(self, v: Vector) -> i64
        requires narrow { AreNarrow self }
        requires vector { IsVectorWithin 400000 (vector_of v) }
        ensures value { result ≡ product (vector_of v) (sum_of self.sum) }
        ensures size { Size (2 ^ 61) result }
    {
        v.x * self.sum.x as i64 + v.y * self.sum.y as i64 + v.z * self.sum.z as i64
    }

    /// The slack in 64 bits.
    fn narrow_slack<T: Potential>(self, v: Vector) -> i64
        requires narrow { AreNarrow self }
        requires vector { IsVectorWithin 400000 (vector_of v) }
        ensures { result ≡ slack_at T.SQUARE self (vector_of v) }
    {
        let squared_length = v.x * v.x + v.y * v.y + v.z * v.z;
        2 * self.narrow_along(v) - T::SQUARE as i64 * (self.mass as i64 * squared_length)
    }

    /// The product with the weighted sum, in 128 bits.
    fn wide_along<K: Kernel, T: Potential>(self, v: Vector) -> i128
        requires within { AreWithin T.SQUARE K.DIM self }
        requires vector { IsVectorWithin (difference_limit K.DIM) (vector_of v) }
        ensures { result ≡ product (vector_of v) (sum_of self.sum) }
    {
        v.x as i128 * self.sum.x + v.y as i128 * self.sum.y + v.z as i128 * self.sum.z
    }

    /// The slack in 128 bits.
    fn wide_slack<K: Kernel, T: Potential>(self, kernel: &K, v: Vector) -> i128
        requires within { AreWithin T.SQUARE K.DIM self }
        requires vector { IsVectorWithin (difference_limit K.DIM) (vector_of v) }
        ensures { result ≡ slack_at T.SQUARE self (vector_of v) }
    {
        2 * self.wide_along::<K, T>(v) - T::SQUARE * (self.mass * kernel.dot(v, v))
    }
}

/// Whether a number's magnitude is at most this.
fn is_within(n: i128, most: u128) -> bool
    ensures { IsTrue result ↔ Size most n }
{
    n.unsigned_abs() <= most
}
