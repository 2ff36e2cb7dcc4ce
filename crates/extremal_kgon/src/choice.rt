//! The first corners whose area is the greatest potential.
ghost use Rattle.std.specs.Prelude.{◌≡◌, ◌+◌, ◌^◌, ◌<◌, ◌≤◌, ◌+ℤ◌, ◌<ℤ◌, length, map, All, pos};
ghost use Rattle.integers.specs.Size.{Size};
ghost use Rattle.added_areas.specs.PlaneVectors.{vector_of, IsShort};
ghost use Rattle.added_areas.specs.AddedRows.{most_after, AreAdded};
ghost use Rattle.extremal_kgon.specs.Choices.{IsNext, IsReached, IsFirstChoice};

use crate::table::Best;
use added_areas::{PlaneVector, added_rows, area, vectors_from};
use arrayvec::ArrayVec;
use bounded_coords::Point2;

/// The most corners of a polygon.
pub(crate) const MOST_CHOSEN: usize = 12;

/// The first position after the last one with which, and with so many more after it, a polygon that covers so much so far still reaches the
/// size.
fn next_position(
    vectors: &[PlaneVector],
    rows: &[i64],
    last: usize,
    more: usize,
    covered: i64,
    size: i64,
) -> usize
    requires few { length vectors.now ≤ 128 }
    requires last { last < length vectors.now }
    requires more { more ≤ 10 }
    requires short { All IsShort vectors.now }
    requires rows { AreAdded (map vector_of vectors.now) more rows.now }
    requires covered { Size (2 ^ 44) covered }
    requires size { Size (2 ^ 43) size }
    requires unfinished { covered <ℤ size }
    requires reaches { covered +ℤ most_after (map vector_of vectors.now) (more + 1) last ≡ size }
    ensures { IsNext (map vector_of vectors.now) last more covered size result }
{
    let start = more * vectors.len();
    'later: for next in last + 1..vectors.len() {
        let with_next = covered + area(vectors[last], vectors[next]);
        if with_next + rows[start + next] >= size {
            return next;
        }
    }
    unreachable!()
}

/// The first positions of corners, in the order of lists, whose polygon has the greatest potential as twice its area: the first corner alone
/// where that is 0.
pub(crate) fn choice(corners: &[Point2], layers: usize, best: &Best) -> ArrayVec<u32, MOST_CHOSEN>
    requires some { 0 < length corners.now }
    requires count { length corners.now ≤ 128 }
    requires layers { layers ≤ 10 }
    requires reached { IsReached corners.now layers best.now }
    ensures { IsFirstChoice corners.now layers best.now.first best.now.area result.items }
{
    let vectors = vectors_from(corners, best.first);
    let rows = added_rows(vectors.as_slice(), layers);
    let mut chosen = ArrayVec::new();
    chosen.push(best.first as u32);
    let mut covered = 0;
    let mut last = best.first;
    let mut more = layers + 1;
    'corners: while covered < best.area {
        more -= 1;
        let next = next_position(
            vectors.as_slice(),
            rows.as_slice(),
            last,
            more,
            covered,
            best.area,
        );
        covered += area(vectors[last], vectors[next]);
        chosen.push(next as u32);
        last = next;
    }
    chosen
}
