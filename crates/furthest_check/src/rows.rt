//! Whether the named corners are the first furthest ones.
//!
//! In four corners in turning order the crossing pairs are far apart, so the named corners, counted on around, do not fall from one corner
//! to the next. Where they do not, each corner need only be compared with those from the one that is named before it to the one that is
//! named after it: about three comparisons for each corner.
ghost use Rattle.std.specs.Prelude.{◌≡◌, ◌↔◌, ◌+◌, ◌*◌, ◌^◌, ◌%◌, ◌<◌, ◌≤◌, ℕ, ◌≤ℤ◌, ◌<ℤ◌, length, map, All, IsTrue};
ghost use Rattle.integers.specs.Size.{Size};
ghost use Rattle.bounds_model.specs.Numbers.{EachBelow};
ghost use Rattle.bounds_model.specs.Plane.{point_at};
ghost use Rattle.bounds_model.specs.Hull.{around, AreCorners};
ghost use Rattle.bounded_coords.specs.Clouds.{points_of};
ghost use Rattle.answers.specs.Answers.{entry_of};
ghost use Rattle.bounds_model.specs.Furthest.{IsFurthest};
ghost use Rattle.bounds_model.specs.FurthestAnswer.{far_at};
ghost use Rattle.furthest_laws.specs.Rows.{distances};
ghost use Rattle.furthest_check.specs.RowTests.{IsRowTest, RowPasses, gap as gap_of};

use answers::Entry;
use bounded_coords::{Cloud2, Point2};
use directions::squared_distance;
use hull_test::corner;

/// The position in a list that is gone around, less than twice.
fn position(count: usize, i: usize) -> usize
    requires some { 0 < count }
    requires within { i < 2 * count }
    ensures value { result ≡ i % count }
    ensures below { result < count }
{
    if i < count { i } else { i - count }
}

/// How many positions on the corner stands that is named for a corner, whose position is counted around.
fn gap(entries: &[Entry], i: usize) -> usize
    requires some { 1 ≤ length entries.now }
    requires few { length entries.now ≤ 10000 }
    requires within { i < 2 * length entries.now }
    requires fars { All (λ e. e.far < length entries.now) entries.now }
    ensures value { result ≡ gap_of (map entry_of entries.now) i }
    ensures below { result < length entries.now }
{
    let count = entries.len();
    let here = position(count, i);
    let far = entries[here].far as usize;
    position(count, far + (count - here))
}

/// The corner at a position that is counted around.
fn corner_around<'a>(cloud: Cloud2<'a>, numbers: &[u32], i: usize) -> &'a Point2
    requires some { 1 ≤ length numbers.now }
    requires few { length numbers.now ≤ 10000 }
    requires within { i < 2 * length numbers.now }
    requires numbers { All (λ n. n < length (points_of cloud)) numbers.now }
    ensures { result.now ≡ around (map (point_at (points_of cloud.entry)) numbers.now) i }
{
    corner(cloud, numbers, position(numbers.len(), i))
}

/// The squared distance of a corner from the one so many positions on.
fn distance_on(cloud: Cloud2<'_>, numbers: &[u32], row: usize, s: usize) -> i64
    requires some { 1 ≤ length numbers.now }
    requires few { length numbers.now ≤ 10000 }
    requires row { row < length numbers.now }
    requires within { s < length numbers.now }
    requires numbers { All (λ n. n < length (points_of cloud)) numbers.now }
    ensures value { result ≡ distances (map (point_at (points_of cloud.entry)) numbers.now) row (row + s) }
    ensures small { Size 320000000000 result }
{
    squared_distance(
        corner_around(cloud, numbers, row),
        corner_around(cloud, numbers, row + s),
    )
}

/// Whether the corners from one place to before another are nearer than this.
fn are_nearer(
    cloud: Cloud2<'_>,
    numbers: &[u32],
    row: usize,
    from: usize,
    to: usize,
    most: i64,
) -> bool
    requires few { length numbers.now ≤ 10000 }
    requires row { row < length numbers.now }
    requires within { to ≤ length numbers.now }
    requires numbers { All (λ n. n < length (points_of cloud)) numbers.now }
    ensures { IsTrue result ↔ ((s : ℕ) → from ≤ s → s < to
        → distances (map (point_at (points_of cloud.entry)) numbers.now) row (row + s) <ℤ most) }
{
    for s in from..to {
        if distance_on(cloud, numbers, row, s) >= most {
            return false;
        }
    }
    true
}

/// Whether the corners from one place to before another are not farther than this.
fn are_no_farther(
    cloud: Cloud2<'_>,
    numbers: &[u32],
    row: usize,
    from: usize,
    to: usize,
    most: i64,
) -> bool
    requires few { length numbers.now ≤ 10000 }
    requires row { row < length numbers.now }
    requires within { to ≤ length numbers.now }
    requires numbers { All (λ n. n < length (points_of cloud)) numbers.now }
    ensures { IsTrue result ↔ ((s : ℕ) → from ≤ s → s < to
        → distances (map (point_at (points_of cloud.entry)) numbers.now) row (row + s) ≤ℤ most) }
{
    for s in from..to {
        if distance_on(cloud, numbers, row, s) > most {
            return false;
        }
    }
    true
}

/// Whether the corner so many positions on is the first furthest one, as far as the corners show from that of the corner before to that
/// of the corner after.
fn is_row(
    cloud: Cloud2<'_>,
    numbers: &[u32],
    before: usize,
    here: usize,
    after: usize,
    row: usize,
) -> bool
    requires few { length numbers.now ≤ 10000 }
    requires row { row < length numbers.now }
    requires before { before < length numbers.now }
    requires here { here < length numbers.now }
    requires after { after < length numbers.now }
    requires numbers { All (λ n. n < length (points_of cloud)) numbers.now }
    ensures { IsTrue result
        ↔ IsRowTest (distances (map (point_at (points_of cloud.entry)) numbers.now)) (length numbers.now) before here after row }
{
    if here < 1 {
        return false;
    }
    if before > here + 1 {
        return false;
    }
    let most = distance_on(cloud, numbers, row, here);
    if !are_nearer(cloud, numbers, row, before.max(2) - 1, here, most) {
        return false;
    }
    are_no_farther(
        cloud,
        numbers,
        row,
        here + 1,
        (after + 2).min(numbers.len()),
        most,
    )
}

/// Whether the corner that is named for this one passes.
fn row_passes(cloud: Cloud2<'_>, numbers: &[u32], entries: &[Entry], i: usize) -> bool
    requires few { length numbers.now ≤ 10000 }
    requires same { length entries.now ≡ length numbers.now }
    requires row { i < length numbers.now }
    requires numbers { All (λ n. n < length (points_of cloud)) numbers.now }
    requires fars { All (λ e. e.far < length entries.now) entries.now }
    ensures { IsTrue result
        ↔ RowPasses (map (point_at (points_of cloud.entry)) numbers.now) (map entry_of entries.now) i }
{
    let before = gap(entries, i + (entries.len() - 1));
    let here = gap(entries, i);
    let after = gap(entries, i + 1);
    is_row(cloud, numbers, before, here, after, i)
}

/// Whether the corners that are named for all of them pass.
fn all_pass(cloud: Cloud2<'_>, numbers: &[u32], entries: &[Entry]) -> bool
    requires few { length numbers.now ≤ 10000 }
    requires same { length entries.now ≡ length numbers.now }
    requires numbers { All (λ n. n < length (points_of cloud)) numbers.now }
    requires fars { All (λ e. e.far < length entries.now) entries.now }
    ensures { IsTrue result
        ↔ EachBelow (length numbers.now) (RowPasses (map (point_at (points_of cloud.entry)) numbers.now) (map entry_of entries.now)) }
{
    for i in 0..numbers.len() {
        if !row_passes(cloud, numbers, entries, i) {
            return false;
        }
    }
    true
}

/// Whether the named corners are the first furthest ones.
pub(crate) fn are_furthest(cloud: Cloud2<'_>, numbers: &[u32], entries: &[Entry]) -> bool
    requires some { 1 ≤ length numbers.now }
    requires few { length numbers.now ≤ 10000 }
    requires same { length entries.now ≡ length numbers.now }
    requires numbers { All (λ n. n < length (points_of cloud)) numbers.now }
    requires fars { All (λ e. e.far < length entries.now) entries.now }
    requires corners { AreCorners (points_of cloud) (map (point_at (points_of cloud)) numbers.now) }
    ensures { IsTrue result
        ↔ EachBelow (length numbers.now) (λ i. IsFurthest (map (point_at (points_of cloud.entry)) numbers.now) i (far_at (map entry_of entries.now) i)) }
{
    if numbers.len() == 1 {
        return true;
    }
    all_pass(cloud, numbers, entries)
}
