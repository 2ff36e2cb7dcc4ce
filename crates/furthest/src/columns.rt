//! The first furthest corners, found by halving the rows of the table of distances.
ghost use Rattle.std.specs.Prelude.{◌≡◌, ℕ, ◌+◌, ◌*◌, ◌^◌, ◌<◌, ◌≤◌, length, IfOk};
ghost use Rattle.hull_calipers.specs.CornerLists.{corners_in};
ghost use Rattle.furthest.specs.Columns.{IsLogarithm, HasColumns, NamesFurthest};

use crate::scan::{first_between, first_greatest};
use bounded_coords::{OutOfMemory, Steps};
use hull_calipers::{Corners, corners_are_those_of_the_hull};
use std::alloc::Global;
use std::sync::ledger::Ledger;

/// The least power of two that is not below a number.
fn power_from(count: u32) -> u32
    requires few { count ≤ 10000 }
    requires some { 1 ≤ count }
    ensures power { (m : ℕ) × (result ≡ 2 ^ m) }
    ensures from { count ≤ result }
    ensures below { result < 2 * count }
{
    let mut power = 1;
    'powers: while power < count {
        power *= 2;
    }
    power
}

/// Finds the columns of the rows between those whose numbers are multiples of twice the stride.
fn fill<L: Ledger>(corners: &Corners<'_>, columns: &mut [u32], stride: u32, steps: &mut Steps<L>)
    requires two { 2 ≤ length (corners_in corners.now) }
    requires some { 1 ≤ stride }
    requires stride { stride < length (corners_in corners.now) }
    requires columns { HasColumns (corners_in corners.now) (2 * stride) columns.old }
    ensures columns { HasColumns (corners_in corners.now) stride columns.new }
    ensures steps { steps.new ≤ steps.old + 5 * length (corners_in corners.now) }
{
    corners_are_those_of_the_hull(corners);
    let count = corners.len();
    let mut low = columns[0];
    let mut row = stride;
    'rows: while row < count {
        let high = columns[(row + stride).min(count) as usize];
        columns[row as usize] = first_between(corners, row, low, high, steps);
        low = high;
        row += 2 * stride;
    }
}

/// The columns of all rows, where there are two corners or more.
fn all_columns<L: Ledger>(corners: &Corners<'_>, columns: &mut [u32], steps: &mut Steps<L>)
    requires two { 2 ≤ length (corners_in corners.now) }
    requires as_many { length columns.old ≡ length (corners_in corners.now) + 1 }
    ensures columns { HasColumns (corners_in corners.now) 1 columns.new }
    ensures steps { (b : ℕ) → IsLogarithm (2 * length (corners_in corners.now) + 1) b
        → steps.new ≤ steps.old + length (corners_in corners.now) + 5 * length (corners_in corners.now) * b }
{
    corners_are_those_of_the_hull(corners);
    let count = corners.len();
    let first = first_greatest(corners, 0, 1, count, steps);
    columns[0] = first;
    columns[count as usize] = first + count;
    let mut stride = power_from(count);
    'strides: while stride > 1 {
        stride /= 2;
        fill(corners, columns, stride, steps);
    }
}

/// For each corner the column of its first furthest one. The table of distances is totally monotone, since in four corners in turning order
/// the crossing pairs are far apart: so the columns do not fall from row to row, and each row need only be looked at between those
/// of two others (Aggarwal, Klawe, Moran, Shor and Wilber, Geometric applications of a matrix-searching algorithm, 1987).
pub(crate) fn columns<L: Ledger>(
    alloc: Global,
    corners: &Corners<'_>,
    steps: &mut Steps<L>,
) -> Result<Vec<u32>, OutOfMemory>
    ensures furthest { IfOk result (λ v. NamesFurthest (corners_in corners.now) v.items) }
    ensures steps { (b : ℕ) → IsLogarithm (2 * length (corners_in corners.now) + 1) b
        → steps.new ≤ steps.old + length (corners_in corners.now) + 5 * length (corners_in corners.now) * b }
{
    corners_are_those_of_the_hull(corners);
    let count = corners.len();
    let Ok(mut columns) = vec![in alloc; 0; count as usize + 1] else {
        return Err(OutOfMemory);
    };
    if count < 2 {
        return Ok(columns);
    }
    all_columns(corners, &mut columns, steps);
    Ok(columns)
}
