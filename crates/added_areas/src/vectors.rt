//! Vectors between points of the plane, and the areas of the triangles over them.
ghost use Rattle.std.specs.Prelude.{◌≡◌, ◌^◌, ◌<◌, ◌≤◌, length};
ghost use Rattle.integers.specs.Size.{Size};
ghost use Rattle.bounds_model.specs.Plane.{vector, cross};
ghost use Rattle.added_areas.specs.PlaneVectors.{vector_of, IsShort, AreVectorsFrom};

use arrayvec::ArrayVec;
use bounded_coords::Point2;
use kernel_laws::{Kernel, Plane};

/// The most corners of a hull.
pub const MOST_CORNERS: usize = 128;

/// The vector from one point of the plane to another.
#[derive(Clone, Copy, Debug, Default, PartialEq, Eq)]
pub struct PlaneVector {
    pub x: i64,
    pub y: i64,
}

/// The vector from one point to another.
pub fn vector_between(from: &Point2, to: &Point2) -> PlaneVector
    ensures value { vector_of result ≡ vector from.now to.now }
    ensures short { IsShort result }
{
    let difference = Plane.diff(from, to);
    PlaneVector {
        x: difference.x,
        y: difference.y,
    }
}

/// Twice the area of the triangle over two vectors, above 0 where the second is to the left of the first.
pub fn area(from: PlaneVector, to: PlaneVector) -> i64
    requires from { IsShort from }
    requires to { IsShort to }
    ensures value { result ≡ cross (vector_of from) (vector_of to) }
    ensures small { Size (2 ^ 39) result }
{
    from.x * to.y - from.y * to.x
}

/// The vectors from a corner to each of the corners.
pub fn vectors_from(corners: &[Point2], first: usize) -> ArrayVec<PlaneVector, MOST_CORNERS>
    requires count { length corners.now ≤ 128 }
    requires first { first < length corners.now }
    ensures { AreVectorsFrom corners.now first result.items }
{
    let mut vectors = ArrayVec::new();
    'corners: for i in 0..corners.len() {
        vectors.push(vector_between(&corners[first], &corners[i]));
    }
    vectors
}
