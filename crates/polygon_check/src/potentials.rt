//! Potentials: bounds on twice the area of the polygons over two corners, and whether each further triangle raises them.
ghost use Rattle.std.specs.Prelude.{◌≡◌, ◌↔◌, ◌+◌, ◌*◌, ◌^◌, ◌<◌, ◌≤◌, length, map, All, IsTrue};
ghost use Rattle.integers.specs.Size.{Size};
ghost use Rattle.added_areas.specs.PlaneVectors.{vector_of, IsShort};
ghost use Rattle.answers.specs.Answers.{polygon_of};
ghost use Rattle.polygon_check.specs.PolygonLimits.{IsTable, RaisesTo, RaisesFrom, RaisesAll};
ghost use Rattle.polygon_check.specs.PotentialRows.{AreRows, AreAreas, AreBelow, AreRaised};

use crate::rows::rows;
use added_areas::{MOST_CORNERS, PlaneVector, area, vectors_from};
use answers::KgonAnswer;
use arrayvec::ArrayVec;
use bounded_coords::Point2;

/// Whether each triangle raises the potentials by at least twice its area.
pub(crate) fn raise_all(corners: &[Point2], a: &KgonAnswer) -> bool
    requires corners { length corners.now ≡ length a.now.corners }
    requires table { IsTable (polygon_of a.now) }
    ensures { IsTrue result ↔ RaisesAll corners.now (polygon_of a.now) }
{
    'firsts: for first in 0..a.corners.len() {
        if !raise_from(corners, a, first) {
            return false;
        }
    }
    true
}

/// Whether the triangles with this first corner do.
fn raise_from(corners: &[Point2], a: &KgonAnswer, first: u32) -> bool
    requires corners { length corners.now ≡ length a.now.corners }
    requires table { IsTable (polygon_of a.now) }
    requires below { first < length a.now.corners }
    ensures { IsTrue result ↔ RaisesFrom corners.now (polygon_of a.now) first }
{
    let vectors = vectors_from(corners, first as usize);
    let rows = rows(a, first);
    let mut areas = ArrayVec::new();
    'lasts: for last in first + 1..a.corners.len() {
        if !raise_to(
            vectors.as_slice(),
            a,
            rows.as_slice(),
            first,
            last,
            &mut areas,
        ) {
            return false;
        }
    }
    true
}

/// Whether the triangles with this first and this last corner do. Their areas are put in the place of those that stand in `areas`, whose
/// room serves for all last corners.
fn raise_to(
    vectors: &[PlaneVector],
    a: &KgonAnswer,
    rows: &[i64],
    first: u32,
    last: u32,
    areas: &mut ArrayVec<i64, MOST_CORNERS>,
) -> bool
    requires vectors { length vectors.now ≡ length a.now.corners }
    requires short { All IsShort vectors.now }
    requires table { IsTable (polygon_of a.now) }
    requires rows { AreRows (polygon_of a.now) first rows.now }
    requires rising { first < last }
    requires below { last < length a.now.corners }
    ensures { IsTrue result ↔ RaisesTo (map vector_of vectors.now) (polygon_of a.now) first last }
{
    put_areas(areas, vectors, first as usize, last as usize);
    let width = (a.corners.len() - 1 - first) as usize;
    are_raised(areas.as_slice(), rows, a.layers as usize, width)
}

/// Puts twice the areas of the triangles with this first and this last corner, one for each corner between them, in the place of others.
fn put_areas(
    areas: &mut ArrayVec<i64, MOST_CORNERS>,
    vectors: &[PlaneVector],
    first: usize,
    last: usize,
)
    requires few { length vectors.now ≤ 128 }
    requires short { All IsShort vectors.now }
    requires rising { first < last }
    requires below { last < length vectors.now }
    ensures { AreAreas (map vector_of vectors.now) first last areas.new.items }
{
    let to = vectors[last];
    areas.clear();
    'middles: for middle in first + 1..last {
        areas.push(area(vectors[middle], to));
    }
}

/// Whether the potentials of the last corner are above those of each corner before it by at least the area, from each layer to the next.
fn are_raised(areas: &[i64], rows: &[i64], layers: usize, width: usize) -> bool
    requires layers { layers ≤ 10 }
    requires width { width ≤ 127 }
    requires index { length areas.now < width }
    requires as_many { length rows.now ≡ (layers + 1) * width }
    requires areas { All (Size (2 ^ 39)) areas.now }
    requires rows { All (Size (2 ^ 43)) rows.now }
    ensures { IsTrue result ↔ AreRaised areas.now rows.now layers width }
{
    'layers: for layer in 0..layers {
        let most = rows[(layer + 1) * width + areas.len()];
        if !are_below(areas, rows, layer * width, most) {
            return false;
        }
    }
    true
}

/// Whether no potential from `start` on comes with its area to more than this. It looks at all of them and turns nowhere, so that a
/// compiler makes vector instructions of it.
fn are_below(areas: &[i64], rows: &[i64], start: usize, most: i64) -> bool
    requires within { start + length areas.now ≤ length rows.now }
    requires areas { All (Size (2 ^ 39)) areas.now }
    requires rows { All (Size (2 ^ 43)) rows.now }
    requires small { Size (2 ^ 43) most }
    ensures { IsTrue result ↔ AreBelow areas.now rows.now start most }
{
    let mut is_above = false;
    'areas: for j in 0..areas.len() {
        is_above |= rows[start + j] + areas[j] > most;
    }
    !is_above
}
