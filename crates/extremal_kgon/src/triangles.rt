//! The areas of the triangles with a first corner.
ghost use Rattle.std.specs.Prelude.{◌≡◌, ◌+◌, ◌^◌, ◌<◌, ◌≤◌, length, map, All};
ghost use Rattle.integers.specs.Size.{Size};
ghost use Rattle.added_areas.specs.PlaneVectors.{vector_of, IsShort};
ghost use Rattle.extremal_kgon.specs.Rows.{area_at, AddsAreas, AreAreas};

use added_areas::{PlaneVector, area};
use arrayvec::ArrayVec;

/// How many pairs of later corners there are at most.
const MOST_PAIRS: usize = 8128;

/// Twice the areas of the triangles over two later corners, for each of them those with the ones before it.
pub(crate) type Areas = ArrayVec<i64, MOST_PAIRS>;

/// Adds the areas over each earlier vector and the one at this index.
fn push_areas(areas: &mut Areas, vectors: &[PlaneVector], i: usize)
    requires index { i < length vectors.now }
    requires room { length areas.old.items + i ≤ 8128 }
    requires short { All IsShort vectors.now }
    ensures { AddsAreas (area_at (map vector_of vectors.now) i) i areas.old.items areas.new.items }
{
    let to = vectors[i];
    'earlier: for j in 0..i {
        areas.push(area(vectors[j], to));
    }
}

/// Keeps the areas over each two of the vectors, over others.
pub(crate) fn set_areas(areas: &mut Areas, vectors: &[PlaneVector])
    requires few { length vectors.now ≤ 128 }
    requires short { All IsShort vectors.now }
    ensures { AreAreas (map vector_of vectors.now) (length vectors.now) areas.new.items }
{
    areas.clear();
    'later: for i in 0..vectors.len() {
        push_areas(areas, vectors, i);
    }
}
