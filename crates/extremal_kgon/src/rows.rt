//! The potentials of a layer: by how much the triangles from a first corner can cover with so many corners more.
ghost use Rattle.std.specs.Prelude.{◌≡◌, ◌+◌, ◌≤◌, ◌^◌, length, map, All, replicate, pos};
ghost use Rattle.integers.specs.Size.{Size};
ghost use Rattle.added_areas.specs.PlaneVectors.{vector_of};
ghost use Rattle.extremal_kgon.specs.Rows.{at, AreAreas, IsBestSum, IsNextRow, IsZeroRow};

use added_areas::{MOST_CORNERS, PlaneVector};
use arrayvec::ArrayVec;

/// The potentials of a first corner's layer, one for each later corner.
pub(crate) type Row = ArrayVec<i64, MOST_CORNERS>;

/// The potentials before any triangle.
pub(crate) fn zero_row(count: usize) -> Row
    requires { count ≤ 128 }
    ensures { IsZeroRow count result.items }
{
    let mut row = ArrayVec::new();
    'later: for _i in 0..count {
        row.push(0);
    }
    row
}

/// The greatest of 0 and of what each earlier corner's potential and the triangle that it makes with the one at this index come to. The
/// areas of those triangles begin at `start`.
fn best_sum(areas: &[i64], start: usize, before: &[i64], i: usize) -> i64
    requires end { start + i ≤ length areas.now }
    requires index { i ≤ length before.now }
    requires areas { All (Size (2 ^ 39)) areas.now }
    requires before { All (Size (2 ^ 43)) before.now }
    ensures { IsBestSum (λ j. at areas.now (start + j)) before.now i result }
{
    let mut most = 0;
    'earlier: for j in 0..i {
        most = most.max(before[j] + areas[start + j]);
    }
    most
}

/// The potentials with one corner more.
pub(crate) fn next_row(vectors: &[PlaneVector], areas: &[i64], before: &[i64]) -> Row
    requires few { length vectors.now ≤ 128 }
    requires as_many { length before.now ≡ length vectors.now }
    requires areas { AreAreas (map vector_of vectors.now) (length vectors.now) areas.now }
    requires before { All (Size (2 ^ 43)) before.now }
    ensures { IsNextRow (map vector_of vectors.now) before.now result.items }
{
    let mut row = ArrayVec::new();
    let mut start = 0;
    'later: for i in 0..vectors.len() {
        row.push(best_sum(areas, start, before, i));
        start += i;
    }
    row
}
