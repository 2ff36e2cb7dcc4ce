//! Where the first square can stand.
ghost use Rattle.std.specs.Prelude.{◌≡◌, ◌↔◌, ◌+◌, ◌≤◌, ◌≤ℤ◌, length, IfOk, IsTrue};
ghost use Rattle.bounded_coords.specs.Clouds.{counted_points};
ghost use Rattle.four_centres.specs.Orders.{IsOrder};
ghost use Rattle.corner_squares.specs.LeastPoints.{IsLeastAt};
ghost use Rattle.four_centres.specs.Heights.{IsBeyond, AreHeightsUpTo, IsNotLast};

use crate::orders::Key;
use bounded_coords::{Counted, OutOfMemory, Point2, Steps};
use corner_squares::Least;
use std::alloc::Global;
use std::sync::ledger::Ledger;

/// Whether the height is more than a side below the least point, so that a square there does not reach it.
pub(crate) fn is_beyond(least: Least, height: i32, side: u32) -> bool
    requires { height ≤ℤ least.y }
    ensures { IsTrue result ↔ IsBeyond least height side }
{
    least.y.abs_diff(height) > side
}

/// The least point: each point is read once.
pub(crate) fn least_point<L: Ledger>(cloud: Counted<'_, Point2>, steps: &mut Steps<L>) -> Least
    ensures least { IsLeastAt (counted_points cloud.entry) result }
    ensures steps { steps.new ≤ steps.old + length (counted_points cloud.entry) }
{
    let mut least = Least::of(cloud.point(0, steps));
    'points: for i in 1..cloud.len() {
        least = least.or(cloud.point(i, steps));
    }
    least
}

/// The y of points that are not above this one, each once, from the lowest up. The order is one from below.
pub(crate) fn heights_up_to(
    alloc: Global,
    cloud: Counted<'_, Point2>,
    order: &[Key],
    top: i32,
) -> Result<Vec<i32>, OutOfMemory>
    requires { IsOrder (λ p. p.y) (counted_points cloud) order.now }
    ensures { IfOk result (λ heights. AreHeightsUpTo top (counted_points cloud.entry) heights.items) }
{
    let mut heights: Vec<i32> = Vec::new(alloc);
    'keys: for i in 0..order.len() {
        let height = order[i].coordinate();
        if height > top {
            return Ok(heights);
        }
        if is_new(&heights, height) {
            match heights.push(height) {
                Ok(()) => {}
                Err(_) => return Err(OutOfMemory),
            }
        }
    }
    Ok(heights)
}

/// Whether the last height is another one.
fn is_new(heights: &[i32], height: i32) -> bool
    ensures { IsTrue result ↔ IsNotLast heights.now height }
{
    match heights.last() {
        Some(last) => *last < height,
        None => true,
    }
}
