//! The equation solver: weights under which vectors have equal slacks, or numbers that show that they are dependent.
ghost use Rattle.std.specs.Prelude.{◌≡◌, ◌↔◌, ◌∷◌, [], ◌<ℤ◌, pos, ◌⊎◌};
ghost use Rattle.bounds_model.specs.Space.{vector, squared_length};
ghost use Rattle.bounds_model.specs.Slacks.{AreAffinelyDependent};
ghost use Rattle.kernel_laws.specs.Vectors.{vector_of, vectors_of};
ghost use Rattle.kernel_laws.specs.Limits.{IsVectorWithin};
ghost use Rattle.kernel_laws.specs.Systems.{cross as cross_of};
ghost use Rattle.kernel_laws.specs.Solutions.{AreItems, weight_limit};
ghost use Rattle.kernel_laws.specs.Answers.{Answers, IsNull, Shows};

use crate::arithmetic::{combined, cross, dot, is_zero, less, minor, negative, right, wide};
use crate::kernels::products;
use crate::lists::{of_five, of_four, of_one, of_three, of_two, weights_of_two};
use crate::potentials::Potential;
use crate::vectors::Vector;
use crate::weights::{weights_by_gram, weights_in_plane, weights_in_space};
use arrayvec::ArrayVec;

/// What the equations of some items have for a solution.
#[derive(Drop)]
pub enum Solved {
    /// Whole weights without common factor, of positive sum, under which all items have one slack.
    Weights(ArrayVec<i128, 5>),
    /// Numbers that are not all 0, with the sum 0, under which the weighted sum of the items is the zero vector.
    Null(ArrayVec<i128, 5>),
}

/// The solution for two items.
fn solve_two<T: Potential>(dim: usize, a: Vector, b: Vector) -> Solved
    requires dim { (dim ≡ 2) ⊎ (dim ≡ 3) }
    requires a { IsVectorWithin 400000 (vector_of a) }
    requires b { IsVectorWithin 400000 (vector_of b) }
    ensures answer { Answers T.SQUARE (weight_limit T.SQUARE dim) (vector_of a ∷ vector_of b ∷ []) result }
    ensures null { IsNull result ↔ AreAffinelyDependent (vector_of a ∷ vector_of b ∷ []) }
{
    let u = less(a, b);
    if is_zero(wide(u)) {
        return Solved::Null(of_two(1, -1));
    }
    let weight = right::<T>(a, b);
    let total = 2 * products(u, u);
    Solved::Weights(weights_of_two(total, weight))
}

/// The solution for three items.
fn solve_three<T: Potential>(dim: usize, a: Vector, b: Vector, c: Vector) -> Solved
    requires dim { (dim ≡ 2) ⊎ (dim ≡ 3) }
    requires items { AreItems T.SQUARE dim (vector_of a ∷ vector_of b ∷ vector_of c ∷ []) }
    requires a { IsVectorWithin 400000 (vector_of a) }
    requires b { IsVectorWithin 400000 (vector_of b) }
    requires c { IsVectorWithin 400000 (vector_of c) }
    ensures answer { Answers T.SQUARE (weight_limit T.SQUARE dim) (vector_of a ∷ vector_of b ∷ vector_of c ∷ []) result }
    ensures null { IsNull result ↔ AreAffinelyDependent (vector_of a ∷ vector_of b ∷ vector_of c ∷ []) }
{
    let u = less(a, b);
    let v = less(a, c);
    if is_zero(wide(u)) {
        return Solved::Null(of_three(1, -1, 0));
    }
    let normal = cross(u, v);
    if is_zero(normal) {
        let p = products(u, v);
        let q = products(u, u);
        return Solved::Null(of_three(q - p, p, -q));
    }
    let r = right::<T>(a, b);
    let s = right::<T>(a, c);
    if dim == 3 {
        return Solved::Weights(weights_by_gram(u, v, normal, r, s));
    }
    if T::SQUARE == 1 {
        let x = minor(r, v.y as i128, s, u.y as i128);
        let y = minor(s, u.x as i128, r, v.x as i128);
        return Solved::Weights(weights_in_plane(u, v, normal, x, y, 2 * normal.z));
    }
    if normal.z < 0 {
        return Solved::Weights(weights_in_plane(u, v, normal, a.x as i128, a.y as i128, -1));
    }
    Solved::Weights(weights_in_plane(u, v, normal, -a.x as i128, -a.y as i128, 1))
}

/// The solution for four items of space, of which the first three are not on a line.
fn four_in_space<T: Potential>(a: Vector, b: Vector, c: Vector, d: Vector) -> Solved
    requires items { AreItems T.SQUARE 3 (vector_of a ∷ vector_of b ∷ vector_of c ∷ vector_of d ∷ []) }
    requires apart { pos 0 <ℤ squared_length (cross_of (vector (vector_of a) (vector_of b)) (vector (vector_of a) (vector_of c))) }
    requires a { IsVectorWithin 16000 (vector_of a) }
    requires b { IsVectorWithin 16000 (vector_of b) }
    requires c { IsVectorWithin 16000 (vector_of c) }
    requires d { IsVectorWithin 16000 (vector_of d) }
    ensures answer { Answers T.SQUARE (weight_limit T.SQUARE 3) (vector_of a ∷ vector_of b ∷ vector_of c ∷ vector_of d ∷ []) result }
    ensures null { IsNull result ↔ AreAffinelyDependent (vector_of a ∷ vector_of b ∷ vector_of c ∷ vector_of d ∷ []) }
{
    let u = less(a, b);
    let v = less(a, c);
    let w = less(a, d);
    let normal = cross(u, v);
    let volume = dot(normal, wide(w));
    if volume == 0 {
        let wv = cross(w, v);
        let uw = cross(u, w);
        let p = dot(wv, normal);
        let q = dot(uw, normal);
        let s = dot(normal, normal);
        return Solved::Null(of_four(s - p - q, p, q, -s));
    }
    if T::SQUARE == 1 {
        let r = right::<T>(a, b);
        let s = right::<T>(a, c);
        let t = right::<T>(a, d);
        let vw = cross(v, w);
        let wu = cross(w, u);
        let m = combined(r, vw, s, wu, t, normal);
        return Solved::Weights(weights_in_space(u, v, w, m, 2 * volume));
    }
    if volume < 0 {
        return Solved::Weights(weights_in_space(u, v, w, wide(a), -1));
    }
    Solved::Weights(weights_in_space(u, v, w, negative(a), 1))
}

/// The solution for four items.
fn solve_four<T: Potential>(dim: usize, a: Vector, b: Vector, c: Vector, d: Vector) -> Solved
    requires dim { (dim ≡ 2) ⊎ (dim ≡ 3) }
    requires items { AreItems T.SQUARE dim (vector_of a ∷ vector_of b ∷ vector_of c ∷ vector_of d ∷ []) }
    requires a { IsVectorWithin 400000 (vector_of a) }
    requires b { IsVectorWithin 400000 (vector_of b) }
    requires c { IsVectorWithin 400000 (vector_of c) }
    requires d { IsVectorWithin 400000 (vector_of d) }
    ensures answer { Answers T.SQUARE (weight_limit T.SQUARE dim) (vector_of a ∷ vector_of b ∷ vector_of c ∷ vector_of d ∷ []) result }
    ensures null { IsNull result ↔ AreAffinelyDependent (vector_of a ∷ vector_of b ∷ vector_of c ∷ vector_of d ∷ []) }
{
    let u = less(a, b);
    let v = less(a, c);
    let w = less(a, d);
    if is_zero(wide(u)) {
        return Solved::Null(of_four(1, -1, 0, 0));
    }
    let normal = cross(u, v);
    if is_zero(normal) {
        let p = products(u, v);
        let q = products(u, u);
        return Solved::Null(of_four(q - p, p, -q, 0));
    }
    if dim == 2 {
        let height = normal.z;
        let wv = cross(w, v);
        let uw = cross(u, w);
        let p = wv.z;
        let q = uw.z;
        return Solved::Null(of_four(height - p - q, p, q, -height));
    }
    four_in_space::<T>(a, b, c, d)
}

/// The dependence of five items of space.
fn solve_five(a: Vector, b: Vector, c: Vector, d: Vector, e: Vector) -> Solved
    requires a { IsVectorWithin 16000 (vector_of a) }
    requires b { IsVectorWithin 16000 (vector_of b) }
    requires c { IsVectorWithin 16000 (vector_of c) }
    requires d { IsVectorWithin 16000 (vector_of d) }
    requires e { IsVectorWithin 16000 (vector_of e) }
    ensures { Shows (vector_of a ∷ vector_of b ∷ vector_of c ∷ vector_of d ∷ vector_of e ∷ []) result }
{
    let u = less(a, b);
    let v = less(a, c);
    let w = less(a, d);
    if is_zero(wide(u)) {
        return Solved::Null(of_five(1, -1, 0, 0, 0));
    }
    let normal = cross(u, v);
    if is_zero(normal) {
        let p = products(u, v);
        let q = products(u, u);
        return Solved::Null(of_five(q - p, p, -q, 0, 0));
    }
    let far = wide(w);
    let volume = dot(normal, far);
    if volume == 0 {
        let wv = cross(w, v);
        let uw = cross(u, w);
        let p = dot(wv, normal);
        let q = dot(uw, normal);
        let s = dot(normal, normal);
        return Solved::Null(of_five(s - p - q, p, q, -s, 0));
    }
    let z = less(a, e);
    let zv = cross(z, v);
    let uz = cross(u, z);
    let wide_z = wide(z);
    let p = dot(zv, far);
    let q = dot(uz, far);
    let s = dot(normal, wide_z);
    Solved::Null(of_five(volume - p - q - s, p, q, s, -volume))
}

/// The solution for 1 to dim + 2 items.
pub(crate) fn solve<T: Potential>(dim: usize, items: &[Vector]) -> Solved
    requires dim { (dim ≡ 2) ⊎ (dim ≡ 3) }
    requires items { AreItems T.SQUARE dim (vectors_of items.now) }
    ensures answer { Answers T.SQUARE (weight_limit T.SQUARE dim) (vectors_of items.now) result }
    ensures null { IsNull result ↔ AreAffinelyDependent (vectors_of items.now) }
{
    let count = items.len();
    if count == 1 {
        return Solved::Weights(of_one(1));
    }
    if count == 2 {
        return solve_two::<T>(dim, items[0], items[1]);
    }
    if count == 3 {
        return solve_three::<T>(dim, items[0], items[1], items[2]);
    }
    if count == 4 {
        return solve_four::<T>(dim, items[0], items[1], items[2], items[3]);
    }
    solve_five(items[0], items[1], items[2], items[3], items[4])
}
