//! The heights at which the first square can stand.
ghost use Rattle.std.specs.Prelude.{◌≡◌, ◌≤ℤ◌, ◌+ℤ◌, pos};
ghost use Rattle.bounded_coords.specs.Clouds.{points_of};
ghost use Rattle.corner_squares.specs.LeastPoints.{IsLeastAt};
ghost use Rattle.centres_check.specs.Heights.{IsLowestFrom, IsLower};

use bounded_coords::Cloud2;
use corner_squares::Least;

/// The least point.
pub(crate) fn least_point(cloud: Cloud2<'_>) -> Least
    ensures { IsLeastAt (points_of cloud.entry) result }
{
    let mut least = Least::of(cloud.at(0));
    'points: for i in 1..cloud.len() {
        least = least.or(cloud.at(i));
    }
    least
}

/// The least y of a point from the one to the other, if there is a point there.
pub(crate) fn lowest_from(cloud: Cloud2<'_>, from: i32, to: i32) -> Option<i32>
    ensures { IsLowestFrom (points_of cloud.entry) from to result }
{
    let mut lowest = None;
    'points: for i in 0..cloud.len() {
        lowest = lower(lowest, cloud.at(i).y(), from, to);
    }
    lowest
}

/// The least value above a height.
pub(crate) fn above(height: i32) -> i32
    requires { height ≤ℤ pos 200000 }
    ensures { result ≡ (height +ℤ pos 1) }
{
    height + 1
}

/// The lower one of what was found before, if anything, and of this value, where it is in the range.
fn lower(found: Option<i32>, value: i32, from: i32, to: i32) -> Option<i32>
    ensures { IsLower found value from to result }
{
    if value < from || value > to {
        return found;
    }
    match found {
        Some(lowest) => { if value < lowest { Some(value) } else { found } }
        None => Some(value),
    }
}
