//! Polygons that come first: no corner that was passed over could stand in place of the next chosen one.
ghost use Rattle.std.specs.Prelude.{◌≡◌, ◌↔◌, ◌+◌, ◌-◌, ◌^◌, ◌<◌, ◌≤◌, length, map, All, IsTrue};
ghost use Rattle.integers.specs.Size.{Size};
ghost use Rattle.bounds_model.specs.Numbers.{EachBelow};
ghost use Rattle.added_areas.specs.PlaneVectors.{vector_of, IsShort};
ghost use Rattle.added_areas.specs.AddedRows.{AreAdded};
ghost use Rattle.polygon_check.specs.FirstTests.{StayBelow, PassesOverNone};

use added_areas::{PlaneVector, added_rows, area, vectors_from};
use bounded_coords::Point2;

/// Whether no corner between the last one and the next adds as much as is left, with so many more after it.
fn stay_below(
    vectors: &[PlaneVector],
    rows: &[i64],
    last: usize,
    next: usize,
    more: usize,
    left: i64,
) -> bool
    requires few { length vectors.now ≤ 128 }
    requires last { last < length vectors.now }
    requires next { next ≤ length vectors.now }
    requires more { more ≤ 10 }
    requires short { All IsShort vectors.now }
    requires rows { AreAdded (map vector_of vectors.now) more rows.now }
    requires left { Size (2 ^ 44) left }
    ensures { IsTrue result ↔ StayBelow (map vector_of vectors.now) last next more left }
{
    let start = more * vectors.len();
    'others: for other in last + 1..next {
        if area(vectors[last], vectors[other]) + rows[start + other] >= left {
            return false;
        }
    }
    true
}

/// Whether with no corner that was passed over, in place of the next chosen one, a polygon has this as twice its area, or more.
pub(crate) fn passes_over_none(corners: &[Point2], chosen: &[u32], layers: usize, size: i64) -> bool
    requires count { length corners.now ≤ 128 }
    requires layers { layers ≤ 10 }
    requires some { 1 ≤ length chosen.now }
    requires few { length chosen.now ≤ layers + 2 }
    requires chosen { All (λ i. i < length corners.now) chosen.now }
    requires size { Size (2 ^ 43) size }
    ensures { IsTrue result
        ↔ EachBelow (length chosen.now - 1) (PassesOverNone corners.now chosen.now layers size) }
{
    let vectors = vectors_from(corners, chosen[0] as usize);
    let rows = added_rows(vectors.as_slice(), layers);
    let mut covered = 0;
    'places: for place in 0..chosen.len() - 1 {
        let last = chosen[place] as usize;
        let next = chosen[place + 1] as usize;
        let more = layers - place;
        let left = size - covered;
        if !stay_below(vectors.as_slice(), rows.as_slice(), last, next, more, left) {
            return false;
        }
        covered += area(vectors[last], vectors[next]);
    }
    true
}
