//! The vectors from a corner to those after it.
ghost use Rattle.std.specs.Prelude.{◌<◌, ◌≤◌, length};
ghost use Rattle.extremal_kgon.specs.LaterVectors.{AreVectorsAfter};

use added_areas::{MOST_CORNERS, PlaneVector, vector_between};
use arrayvec::ArrayVec;
use bounded_coords::Point2;

/// The vectors from a corner to each that follows it.
pub(crate) fn vectors_after(corners: &[Point2], first: usize) -> ArrayVec<PlaneVector, MOST_CORNERS>
    requires count { length corners.now ≤ 128 }
    requires first { first < length corners.now }
    ensures { AreVectorsAfter corners.now first result.items }
{
    let mut vectors = ArrayVec::new();
    'later: for i in first + 1..corners.len() {
        vectors.push(vector_between(&corners[first], &corners[i]));
    }
    vectors
}
