//! The bounding box of all points, by passes for the first point of least and of greatest value.
ghost use Rattle.std.specs.Prelude.{◌≡◌, ◌+◌, ◌*◌, ◌≤◌, [], length};
ghost use Rattle.bounded_coords.specs.Clouds.{counted_points};
ghost use Rattle.corner_squares.specs.Extents.{IsRestBox};

use bounded_coords::{Counted, Measure, Point2, Steps};
use corner_squares::{Bounds, Extent};
use std::sync::ledger::Ledger;

/// How far to the right a point is.
#[derive(Drop)]
struct Across;

impl Measure<Point2> for Across {
    type Value = i32;

    ghost measured = { λ _ p. p.x };

    fn at(&self, point: &Point2) -> i32 {
        point.x()
    }
}

/// How far up a point is.
#[derive(Drop)]
struct Up;

impl Measure<Point2> for Up {
    type Value = i32;

    ghost measured = { λ _ p. p.y };

    fn at(&self, point: &Point2) -> i32 {
        point.y()
    }
}

/// The bounding box, with the number of the first point on each of its sides. Each side is found in a pass of its own, and its
/// point is read once more.
pub(crate) fn bounding_box<L: Ledger>(cloud: Counted<'_, Point2>, steps: &mut Steps<L>) -> Bounds
    ensures bounds { IsRestBox (counted_points cloud.entry) [] result }
    ensures steps { steps.new ≤ steps.old + 8 * length (counted_points cloud.entry) }
{
    let left = cloud.first_least(&Across, steps);
    let right = cloud.first_greatest(&Across, steps);
    let lowest = cloud.first_least(&Up, steps);
    let highest = cloud.first_greatest(&Up, steps);
    Bounds {
        across: Extent {
            low: cloud.point(left, steps).x(),
            high: cloud.point(right, steps).x(),
            low_at: left,
            high_at: right,
        },
        up: Extent {
            low: cloud.point(lowest, steps).y(),
            high: cloud.point(highest, steps).y(),
            low_at: lowest,
            high_at: highest,
        },
    }
}
