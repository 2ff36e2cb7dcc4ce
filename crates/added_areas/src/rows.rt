//! How much is added, in a row of numbers for each number of corners that may still follow.
ghost use Rattle.std.specs.Prelude.{◌≡◌, ◌+◌, ◌*◌, ◌<◌, ◌≤◌, length, map, All};
ghost use Rattle.added_areas.specs.PlaneVectors.{vector_of, IsShort};
ghost use Rattle.added_areas.specs.AddedRows.{most_after, AreAdded};

use crate::vectors::{PlaneVector, area};
use arrayvec::ArrayVec;

/// The most numbers: a row for none up to 10 corners more, with a number for each corner.
const MOST_NUMBERS: usize = 1408;

/// Rows of numbers, one after another, the first for no corner more.
pub type AddedRows = ArrayVec<i64, MOST_NUMBERS>;

/// The greatest of 0 and of what each later corner adds, with what its number in the row before says of the corners after it.
fn most_from(vectors: &[PlaneVector], last: usize, rows: &[i64], layer: usize) -> i64
    requires layer { layer < 10 }
    requires few { length vectors.now ≤ 128 }
    requires last { last < length vectors.now }
    requires short { All IsShort vectors.now }
    requires rows { AreAdded (map vector_of vectors.now) layer rows.now }
    ensures { result ≡ most_after (map vector_of vectors.now) (layer + 1) last }
{
    let start = layer * vectors.len();
    let mut most = 0;
    'later: for passed in 0..vectors.len() - last - 1 {
        let next = vectors.len() - 1 - passed;
        most = most.max(area(vectors[last], vectors[next]) + rows[start + next]);
    }
    most
}

/// Adds the row for one corner more.
fn push_row(rows: &mut AddedRows, vectors: &[PlaneVector], layer: usize)
    requires layer { layer < 10 }
    requires few { length vectors.now ≤ 128 }
    requires short { All IsShort vectors.now }
    requires as_many { length rows.old.items ≡ (layer + 1) * length vectors.now }
    requires rows { AreAdded (map vector_of vectors.now) layer rows.old.items }
    ensures as_many { length rows.new.items ≡ (layer + 2) * length vectors.now }
    ensures rows { AreAdded (map vector_of vectors.now) (layer + 1) rows.new.items }
{
    'lasts: for last in 0..vectors.len() {
        let most = most_from(vectors, last, rows.as_slice(), layer);
        rows.push(most);
    }
}

/// How much none up to so many further corners add to twice the area of a polygon, for each last corner, where the vectors lead from the
/// first corner to each.
pub fn added_rows(vectors: &[PlaneVector], layers: usize) -> AddedRows
    requires layers { layers ≤ 10 }
    requires few { length vectors.now ≤ 128 }
    requires short { All IsShort vectors.now }
    ensures { AreAdded (map vector_of vectors.now) layers result.items }
{
    let mut rows = ArrayVec::new();
    'zeros: for _last in 0..vectors.len() {
        rows.push(0);
    }
    'layers: for layer in 0..layers {
        push_row(&mut rows, vectors, layer);
    }
    rows
}
