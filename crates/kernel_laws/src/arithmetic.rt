//! Vectors and their products, in numbers that fit.
ghost use Rattle.std.specs.Prelude.{negsuc, ◌≡◌, ◌↔◌, ◌^◌, ◌*ℤ◌, ◌-ℤ◌, IsTrue};
ghost use Rattle.integers.specs.Size.{Size};
ghost use Rattle.bounds_model.specs.Space.{vector, origin, times, dot as product};
ghost use Rattle.kernel_laws.specs.Vectors.{vector_of, sum_of};
ghost use Rattle.kernel_laws.specs.Limits.{IsVectorWithin};
ghost use Rattle.kernel_laws.specs.Systems.{right_side, cross as cross_of, sum3};

use crate::kernels::products;
use crate::potentials::Potential;
use crate::vectors::{Sum, Vector};

/// The vector from one place to another.
pub(crate) fn less(from: Vector, to: Vector) -> Vector
    requires from { IsVectorWithin 400000 (vector_of from) }
    requires to { IsVectorWithin 400000 (vector_of to) }
    ensures value { vector_of result ≡ vector (vector_of from) (vector_of to) }
    ensures within { IsVectorWithin 800000 (vector_of result) }
{
    Vector {
        x: to.x - from.x,
        y: to.y - from.y,
        z: to.z - from.z,
    }
}

/// A vector among the sums.
pub(crate) fn wide(v: Vector) -> Sum
    requires { IsVectorWithin 800000 (vector_of v) }
    ensures { sum_of result ≡ vector_of v }
{
    Sum {
        x: v.x as i128,
        y: v.y as i128,
        z: v.z as i128,
    }
}

/// The opposite vector, among the sums.
pub(crate) fn negative(v: Vector) -> Sum
    requires { IsVectorWithin 400000 (vector_of v) }
    ensures { sum_of result ≡ times (negsuc 0) (vector_of v) }
{
    Sum {
        x: -(v.x as i128),
        y: -(v.y as i128),
        z: -(v.z as i128),
    }
}

/// The cross product of two vectors.
pub(crate) fn cross(u: Vector, v: Vector) -> Sum
    requires u { IsVectorWithin 800000 (vector_of u) }
    requires v { IsVectorWithin 800000 (vector_of v) }
    ensures value { sum_of result ≡ cross_of (vector_of u) (vector_of v) }
    ensures within { IsVectorWithin (2 ^ 41) (sum_of result) }
{
    Sum {
        x: (u.y * v.z - u.z * v.y) as i128,
        y: (u.z * v.x - u.x * v.z) as i128,
        z: (u.x * v.y - u.y * v.x) as i128,
    }
}

/// The sum of the products of the coordinates.
pub(crate) fn dot(s: Sum, t: Sum) -> i128
    requires s { IsVectorWithin (2 ^ 80) (sum_of s) }
    requires t { IsVectorWithin (2 ^ 41) (sum_of t) }
    ensures { result ≡ product (sum_of s) (sum_of t) }
{
    s.x * t.x + s.y * t.y + s.z * t.z
}

/// Whether all coordinates are 0.
pub(crate) fn is_zero(s: Sum) -> bool
    ensures { IsTrue result ↔ (sum_of s ≡ origin) }
{
    s.x == 0 && s.y == 0 && s.z == 0
}

/// The right side of the equation of x, seen from a.
pub(crate) fn right<T: Potential>(a: Vector, x: Vector) -> i128
    requires a { IsVectorWithin 400000 (vector_of a) }
    requires x { IsVectorWithin 400000 (vector_of x) }
    ensures value { result ≡ right_side T.SQUARE (vector_of a) (vector_of x) }
    ensures size { Size (2 ^ 42) result }
{
    T::SQUARE * (products(x, x) - products(a, a)) - 2 * products(less(a, x), a)
}

/// Two products, the second taken from the first.
pub(crate) fn minor(a: i128, b: i128, c: i128, d: i128) -> i128
    requires a { Size (2 ^ 80) a }
    requires b { Size (2 ^ 43) b }
    requires c { Size (2 ^ 80) c }
    requires d { Size (2 ^ 43) d }
    ensures { result ≡ a *ℤ b -ℤ c *ℤ d }
{
    a * b - c * d
}

/// The sum of three vectors, each with its factor.
pub(crate) fn combined(r: i128, n: Sum, s: i128, o: Sum, t: i128, p: Sum) -> Sum
    requires r { Size (2 ^ 42) r }
    requires s { Size (2 ^ 42) s }
    requires t { Size (2 ^ 42) t }
    requires n { IsVectorWithin (2 ^ 31) (sum_of n) }
    requires o { IsVectorWithin (2 ^ 31) (sum_of o) }
    requires p { IsVectorWithin (2 ^ 31) (sum_of p) }
    ensures value { sum_of result ≡ sum3 r s t (sum_of n) (sum_of o) (sum_of p) }
    ensures within { IsVectorWithin (2 ^ 75) (sum_of result) }
{
    Sum {
        x: r * n.x + s * o.x + t * p.x,
        y: r * n.y + s * o.y + t * p.y,
        z: r * n.z + s * o.z + t * p.z,
    }
}
