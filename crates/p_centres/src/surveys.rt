//! A pass over the points that squares leave over.
ghost use Rattle.std.specs.Prelude.{◌+◌, ◌≤◌, length};
ghost use Rattle.bounded_coords.specs.Clouds.{counted_points};
ghost use Rattle.corner_squares.specs.Extents.{IsPlaneExtent};
ghost use Rattle.p_centres.specs.Surveys.{IsFarOrNear, IsSurvey, IsWhole};

use answers::Leaf;
use bounded_coords::{Counted, Point2, Steps};
use corner_squares::{Bounds, Square, any_contains};
use std::sync::ledger::Ledger;

/// No box of points is longer.
const LONGEST: u32 = 400_000;

/// What is left over.
#[derive(Clone, Copy)]
pub(crate) enum Finding {
    /// No point.
    Nothing,
    /// Points with this bounding box, which is no longer than the limit.
    Around(Bounds),
    /// Two points that differ by more than the limit in x or in y, among others.
    Far(Leaf),
}

/// What the squares leave over: each point is read once, and none after the first two that are too far apart. One pass finds the
/// ends in x and in y of the points that are left over, and may stop early, so it is no search for the least of one value.
pub(crate) fn survey<L: Ledger>(
    cloud: Counted<'_, Point2>,
    squares: &[Square],
    limit: u32,
    steps: &mut Steps<L>,
) -> Finding
    ensures found { IsSurvey (counted_points cloud.entry) squares.now limit result }
    ensures steps { steps.new ≤ steps.old + length (counted_points cloud.entry) }
{
    let mut found = None;
    for i in 0..cloud.len() {
        let p = cloud.point(i, steps);
        if !any_contains(squares, p) {
            let bounds = Bounds::grown(found, p, i);
            if let Some(leaf) = far_apart(bounds, limit) {
                return Finding::Far(leaf);
            }
            found = Some(bounds);
        }
    }
    match found {
        Some(bounds) => Finding::Around(bounds),
        None => Finding::Nothing,
    }
}

/// Two points at the ends of the box, where it is longer than the limit.
fn far_apart(bounds: Bounds, limit: u32) -> Option<Leaf>
    requires across { IsPlaneExtent bounds.across }
    requires up { IsPlaneExtent bounds.up }
    ensures { IsFarOrNear bounds limit result }
{
    if bounds.across.length() > limit {
        return Some(Leaf {
            first: bounds.across.low_at,
            second: bounds.across.high_at,
        });
    }
    if bounds.up.length() > limit {
        return Some(Leaf {
            first: bounds.up.low_at,
            second: bounds.up.high_at,
        });
    }
    None
}

/// The bounding box of all points that the squares leave over.
pub(crate) fn whole<L: Ledger>(
    cloud: Counted<'_, Point2>,
    squares: &[Square],
    steps: &mut Steps<L>,
) -> Option<Bounds>
    ensures found { IsWhole (counted_points cloud.entry) squares.now result }
    ensures steps { steps.new ≤ steps.old + length (counted_points cloud.entry) }
{
    match survey(cloud, squares, LONGEST, steps) {
        Finding::Nothing => None,
        Finding::Around(bounds) => Some(bounds),
        Finding::Far(_) => unreachable!(),
    }
}
