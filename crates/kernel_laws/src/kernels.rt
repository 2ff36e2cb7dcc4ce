//! The plane and the space.
ghost use Rattle.std.specs.Prelude.{◌≡◌, ◌↔◌, ◌⊎◌, ◌^◌, ℕ, pos};
ghost use Rattle.bounds_model.specs.Space.{SpacePoint, vector, dot as product};
ghost use Rattle.bounds_model.specs.Slacks.{AreAffinelyDependent};
ghost use Rattle.kernel_laws.specs.Vectors.{vector_of, vectors_of};
ghost use Rattle.kernel_laws.specs.Solutions.{AreItems, weight_limit};
ghost use Rattle.kernel_laws.specs.Answers.{Answers, IsNull};
ghost use Rattle.kernel_laws.specs.Limits.{IsVectorWithin, IsDifference};

use crate::potentials::Potential;
use crate::solver::{Solved, solve};
use crate::vectors::Vector;
use bounded_coords::{Point2, Point3};

/// The plane or the space.
pub trait Kernel: Copy {
    /// Its points.
    type P: Copy;

    /// How many coordinates they have: 2 or 3.
    const DIM: usize;

    ghost DIM: { ℕ };

    ghost place: { Self.P → SpacePoint };

    /// The vector from one point to another. In the plane its height is 0.
    fn diff(&self, from: &Self::P, to: &Self::P) -> Vector
        ensures value { vector_of result ≡ vector (place from.now) (place to.now) }
        ensures difference { IsDifference DIM (vector_of result) };

    /// The sum of the products of the coordinates.
    fn dot(&self, a: Vector, b: Vector) -> i128
        requires a { IsVectorWithin (2 ^ 62) (vector_of a) }
        requires b { IsVectorWithin (2 ^ 62) (vector_of b) }
        ensures { result ≡ product (vector_of a) (vector_of b) };

    /// The weights of equal slacks for 1 to DIM + 2 items, or, exactly where they are affinely dependent, numbers that show it.
    fn solve<T: Potential>(&self, items: &[Vector]) -> Solved
        requires { AreItems T.SQUARE DIM (vectors_of items.now) }
        ensures answer { Answers T.SQUARE (weight_limit T.SQUARE DIM) (vectors_of items.now) result }
        ensures null { IsNull result ↔ AreAffinelyDependent (vectors_of items.now) };

    ghost two_or_three: { (DIM ≡ 2) ⊎ (DIM ≡ 3) };

    ghost flat: { (p : Self.P) → DIM ≡ 2 → (place p).z ≡ pos 0 };
}

/// The plane.
#[derive(Clone, Copy, Debug, PartialEq, Eq)]
pub struct Plane;

/// The space.
#[derive(Clone, Copy, Debug, PartialEq, Eq)]
pub struct Space;

impl Kernel for Plane {
    ghost use Rattle.std.proofs.Common.{inl, refl};
    ghost use Rattle.bounds_model.specs.Space.{flat};

    type P = Point2;

    const DIM: usize = 2;

    ghost DIM = { 2 };

    ghost place = { flat };

    fn diff(&self, from: &Point2, to: &Point2) -> Vector {
        Vector {
            x: to.x() as i64 - from.x() as i64,
            y: to.y() as i64 - from.y() as i64,
            z: 0,
        }
    }

    fn dot(&self, a: Vector, b: Vector) -> i128 {
        products(a, b)
    }

    fn solve<T: Potential>(&self, items: &[Vector]) -> Solved {
        solve::<T>(2, items)
    }

    ghost two_or_three = { inl refl };

    ghost flat = { λ p h. refl };
}

impl Kernel for Space {
    ghost use Rattle.std.proofs.Common.{inr, refl, arith};

    type P = Point3;

    const DIM: usize = 3;

    ghost DIM = { 3 };

    ghost place = { λ p. p };

    fn diff(&self, from: &Point3, to: &Point3) -> Vector {
        Vector {
            x: to.x() as i64 - from.x() as i64,
            y: to.y() as i64 - from.y() as i64,
            z: to.z() as i64 - from.z() as i64,
        }
    }

    fn dot(&self, a: Vector, b: Vector) -> i128 {
        products(a, b)
    }

    fn solve<T: Potential>(&self, items: &[Vector]) -> Solved {
        solve::<T>(3, items)
    }

    ghost two_or_three = { inr refl };

    ghost flat = { λ p h. absurd (Prim.omega arith) };
}

/// The sum of the products of the coordinates.
pub(crate) fn products(a: Vector, b: Vector) -> i128
    requires a { IsVectorWithin (2 ^ 62) (vector_of a) }
    requires b { IsVectorWithin (2 ^ 62) (vector_of b) }
    ensures { result ≡ product (vector_of a) (vector_of b) }
{
    a.x as i128 * b.x as i128 + a.y as i128 * b.y as i128 + a.z as i128 * b.z as i128
}
