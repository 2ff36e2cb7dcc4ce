//! One row of the table of distances: those from a corner to the ones after it, going around.
ghost use Rattle.std.specs.Prelude.{◌≡◌, ◌+◌, ◌*◌, ◌%◌, ◌<◌, ◌≤◌, max, min, length};
ghost use Rattle.bounds_model.specs.Hull.{around};
ghost use Rattle.hull_calipers.specs.CornerLists.{corners_in};
ghost use Rattle.furthest_laws.specs.Rows.{IsFirstGreatest, distances};

use bounded_coords::{Point2, Steps};
use directions::squared_distance;
use hull_calipers::Corners;
use std::sync::ledger::Ledger;

/// The position in a list that is gone around, less than twice.
pub(crate) fn position(count: u32, column: u32) -> u32
    requires some { 0 < count }
    requires within { column < 2 * count }
    ensures value { result ≡ column % count }
    ensures below { result < count }
{
    if column < count {
        column
    } else {
        column - count
    }
}

/// The corner of a column, at one step.
fn corner_at<'a, L: Ledger>(corners: &Corners<'a>, column: u32, steps: &mut Steps<L>) -> &'a Point2
    requires { column < 2 * length (corners_in corners.now) }
    ensures corner { result.now ≡ around (corners_in corners.now) column }
    ensures step { steps.new ≡ steps.old + 1 }
{
    corners.corner(position(corners.len(), column), steps)
}

/// Of the columns from one to before another, the first with the greatest distance.
pub(crate) fn first_greatest<L: Ledger>(
    corners: &Corners<'_>,
    row: u32,
    from: u32,
    to: u32,
    steps: &mut Steps<L>,
) -> u32
    requires row { row < length (corners_in corners.now) }
    requires some { from < to }
    requires within { to ≤ 2 * length (corners_in corners.now) }
    ensures found { IsFirstGreatest (distances (corners_in corners.now) row) from to result }
    ensures steps { steps.new + from ≡ steps.old + to + 1 }
{
    let here = corner_at(corners, row, steps);
    let mut most = squared_distance(here, corner_at(corners, from, steps));
    let mut first = from;
    'columns: for column in from + 1..to {
        let distance = squared_distance(here, corner_at(corners, column, steps));
        if distance > most {
            most = distance;
            first = column;
        }
    }
    first
}

/// The first greatest column of a row, where those of a row before and of a row after are known.
pub(crate) fn first_between<L: Ledger>(
    corners: &Corners<'_>,
    row: u32,
    low: u32,
    high: u32,
    steps: &mut Steps<L>,
) -> u32
    requires row { row < length (corners_in corners.now) }
    requires order { low ≤ high }
    requires low { low < row + length (corners_in corners.now) }
    requires high { row + 1 < high }
    requires within { high < 2 * length (corners_in corners.now) }
    requires two { 2 ≤ length (corners_in corners.now) }
    ensures found { IsFirstGreatest (distances (corners_in corners.now) row)
        (max (row + 1) low) (min (row + length (corners_in corners.now)) (high + 1)) result }
    ensures steps { steps.new + low ≤ steps.old + high + 2 }
{
    let count = corners.len();
    let from = low.max(row + 1);
    let to = (high + 1).min(row + count);
    first_greatest(corners, row, from, to, steps)
}
