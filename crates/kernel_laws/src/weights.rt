//! The weights of three and four items, from products of their differences.
ghost use Rattle.std.specs.Prelude.{◌≡◌, ◌^◌, ◌<ℤ◌, ◌*ℤ◌, pos};
ghost use Rattle.integers.specs.Size.{Size};
ghost use Rattle.bounds_model.specs.Space.{squared_length, dot as product};
ghost use Rattle.kernel_laws.specs.Vectors.{vector_of, sum_of};
ghost use Rattle.kernel_laws.specs.Limits.{IsVectorWithin};
ghost use Rattle.kernel_laws.specs.Systems.{cross as cross_of, gram_weights, plane_weights, space_weights};
ghost use Rattle.kernel_laws.specs.Solutions.{Reduces};

use crate::arithmetic::{cross, dot, minor, wide};
use crate::kernels::products;
use crate::lists::{weights_of_four, weights_of_three};
use crate::vectors::{Sum, Vector};
use arrayvec::ArrayVec;

/// The weights of three items in space, by Gram's matrix.
pub(crate) fn weights_by_gram(
    u: Vector,
    v: Vector,
    normal: Sum,
    r: i128,
    s: i128,
) -> ArrayVec<i128, 5>
    requires u { IsVectorWithin 800000 (vector_of u) }
    requires v { IsVectorWithin 800000 (vector_of v) }
    requires normal { sum_of normal ≡ cross_of (vector_of u) (vector_of v) }
    requires within { IsVectorWithin (2 ^ 41) (sum_of normal) }
    requires apart { pos 0 <ℤ squared_length (sum_of normal) }
    requires r { Size (2 ^ 42) r }
    requires s { Size (2 ^ 42) s }
    ensures { Reduces (gram_weights (vector_of u) (vector_of v) r s) result.items }
{
    let uu = products(u, u);
    let uv = products(u, v);
    let vv = products(v, v);
    let p = minor(r, vv, s, uv);
    let q = minor(s, uu, r, uv);
    let half = dot(normal, normal);
    weights_of_three(2 * half, p, q)
}

/// The weights of three items in the plane, by the centre (x, y) / k.
pub(crate) fn weights_in_plane(
    u: Vector,
    v: Vector,
    normal: Sum,
    x: i128,
    y: i128,
    k: i128,
) -> ArrayVec<i128, 5>
    requires u { IsVectorWithin 800000 (vector_of u) }
    requires v { IsVectorWithin 800000 (vector_of v) }
    requires normal { sum_of normal ≡ cross_of (vector_of u) (vector_of v) }
    requires within { IsVectorWithin (2 ^ 41) (sum_of normal) }
    requires x { Size (2 ^ 64) x }
    requires y { Size (2 ^ 64) y }
    requires k { Size (2 ^ 43) k }
    requires positive { pos 0 <ℤ (k *ℤ normal.z) }
    ensures { Reduces (plane_weights (vector_of u) (vector_of v) x y k) result.items }
{
    let p = minor(x, v.y as i128, y, v.x as i128);
    let q = minor(y, u.x as i128, x, u.y as i128);
    weights_of_three(k * normal.z, p, q)
}

/// The weights of four items in space, by the centre m / k.
pub(crate) fn weights_in_space(
    u: Vector,
    v: Vector,
    w: Vector,
    m: Sum,
    k: i128,
) -> ArrayVec<i128, 5>
    requires u { IsVectorWithin 32000 (vector_of u) }
    requires v { IsVectorWithin 32000 (vector_of v) }
    requires w { IsVectorWithin 32000 (vector_of w) }
    requires m { IsVectorWithin (2 ^ 75) (sum_of m) }
    requires k { Size (2 ^ 52) k }
    requires positive { pos 0 <ℤ (k *ℤ product (cross_of (vector_of u) (vector_of v)) (vector_of w)) }
    ensures { Reduces (space_weights (vector_of u) (vector_of v) (vector_of w) (sum_of m) k) result.items }
{
    let normal = cross(u, v);
    let volume = dot(normal, wide(w));
    let p = dot(m, cross(v, w));
    let q = dot(m, cross(w, u));
    let s = dot(m, normal);
    weights_of_four(k * volume, p, q, s)
}
