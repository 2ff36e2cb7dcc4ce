//! Four squares of one size that cover all points.
ghost use Rattle.std.specs.Prelude.{◌+◌, ◌*◌, ◌≤◌, length, map, IfOk, IfErr};
ghost use Rattle.bounded_coords.specs.Clouds.{counted_points};
ghost use Rattle.bounds_model.specs.FourAnswer.{PassesFour};
ghost use Rattle.answers.specs.Answers.{leaf_of, four_of};
ghost use Rattle.corner_squares.specs.LeastPoints.{IsLeastAt};
ghost use Rattle.four_centres.specs.Orders.{AreOrders};
ghost use Rattle.four_centres.specs.Windows.{reads};
ghost use Rattle.four_centres.specs.Heights.{AreHeightsUpTo};
ghost use Rattle.four_centres.specs.Search.{IsBestSoFar, AreDone, AreKept, AreFourLeavesOf};
ghost use Rattle.four_centres.specs.Faults.{IsCause};

use crate::ends::Ends;
use crate::heights::{heights_up_to, least_point};
use crate::orders::{Orders, sorted_points};
use crate::search::{Best, Kept, append, first_reaching, leaves_from, search};
use answers::{AnswerList, FourAnswer, Leaves};
use arrayvec::ArrayVec;
use bounded_coords::{Counted, OutOfMemory, Point2, Steps};
use corner_squares::{Bounds, Least, filled_up, square_centres, square_radius};
use std::alloc::Global;
use std::error::Error;
use std::fmt;
use std::sync::ledger::Ledger;

/// The most points that are taken.
const MOST_POINTS: u32 = 1000;

/// Why a question has no answer.
#[derive(Clone, Copy, Debug, PartialEq, Eq)]
pub enum FourFault {
    /// There are so many points, more than 1000.
    TooManyPoints(u32),
    /// Memory was refused.
    OutOfMemory,
}

impl fmt::Display for FourFault {
    ghost use Rattle.std.specs.Prelude.{Some};
    ghost use Rattle.four_centres.specs.Messages.{four_message};

    ghost output = { λ fault. Some (four_message fault) };

    fn fmt<W: fmt::Write>(&self, f: &mut fmt::Formatter<W>) -> fmt::Result {
        match *self {
            FourFault::TooManyPoints(count) => write!(
                f,
                "{count} points, at most 1000 are taken for four centres"
            ),
            FourFault::OutOfMemory => f.write_str("out of memory"),
        }
    }
}

impl Error for FourFault {}

impl From<OutOfMemory> for FourFault {
    ghost use Rattle.std.specs.Prelude.{◌≡◌};
    ghost use Rattle.four_centres.specs.declared.squares.FourFault.TheVariants.{OutOfMemory};

    ghost from_gives = { λ _ fault. fault ≡ OutOfMemory };

    fn from(_: OutOfMemory) -> FourFault {
        FourFault::OutOfMemory
    }
}

/// The least size of four squares that cover all points, with such squares, and leaves which show that no smaller ones do:
/// CGAL's `rectangular_p_center_2` for four centres. The first square has its left side at the least point and stands at
/// a height, the y of a point; each height that can still be better is searched by halving.
pub fn four<L: Ledger>(
    alloc: Global,
    cloud: Counted<'_, Point2>,
    steps: &mut Steps<L>,
) -> Result<FourAnswer, FourFault>
    ensures passes { IfOk result (λ a. PassesFour (counted_points cloud.entry) (four_of a)) }
    ensures taken { IfOk result (λ a. length (counted_points cloud.entry) ≤ 1000) }
    ensures cause { IfErr result (λ fault. IsCause (counted_points cloud.entry) fault) }
    ensures steps { steps.new
        ≤ steps.old + 600 * (length (counted_points cloud.entry) * length (counted_points cloud.entry)) + 1000 * length (counted_points cloud.entry) }
{
    if cloud.len() > MOST_POINTS {
        return Err(FourFault::TooManyPoints(cloud.len()));
    }
    Ok(best_four(alloc, cloud, steps)?)
}

/// The answer for few points.
fn best_four<L: Ledger>(
    alloc: Global,
    cloud: Counted<'_, Point2>,
    steps: &mut Steps<L>,
) -> Result<FourAnswer, OutOfMemory>
    requires few { length (counted_points cloud) ≤ 1000 }
    ensures passes { IfOk result (λ a. PassesFour (counted_points cloud.entry) (four_of a)) }
    ensures steps { steps.new
        ≤ steps.old + 600 * (length (counted_points cloud.entry) * length (counted_points cloud.entry)) + 1000 * length (counted_points cloud.entry) }
{
    let orders = sorted_points(alloc, cloud, steps)?;
    let least = least_point(cloud, steps);
    let heights = heights_up_to(alloc, cloud, orders.up.as_slice(), least.y)?;
    let mut best = one_square(cloud, &orders);
    let heights = heights.as_slice();
    let kept = search(alloc, cloud, &orders, least, heights, &mut best, steps)?;
    let leaves = leaves_below(
        alloc, cloud, &orders, least, heights, best.side, kept, steps,
    )?;
    let squares = filled_up(best.squares, 4);
    Ok(FourAnswer {
        size: square_radius(best.side),
        squares: square_centres(best.side, squares.as_slice()),
        leaves,
    })
}

/// One square as wide as the longer side of the bounding box.
fn one_square(cloud: Counted<'_, Point2>, orders: &Orders) -> Best
    requires { AreOrders (counted_points cloud) orders.now }
    ensures { IsBestSoFar (counted_points cloud.entry) result }
{
    let all = Ends {
        low: 0,
        high: cloud.len() - 1,
    };
    let across = all.extent(&orders.across);
    let up = all.extent(&orders.up);
    let side = across.length().max(up.length());
    let mut squares = ArrayVec::new();
    squares.push(Bounds { across, up }.corner_square(0, side));
    Best { side, squares }
}

/// The leaves at a side less by 1, where there is one: those that were kept, and before them those of the heights that were
/// searched before the best side was found.
fn leaves_below<L: Ledger>(
    alloc: Global,
    cloud: Counted<'_, Point2>,
    orders: &Orders,
    least: Least,
    heights: &[i32],
    side: u32,
    kept: Kept,
    steps: &mut Steps<L>,
) -> Result<Leaves, OutOfMemory>
    requires few { length (counted_points cloud) ≤ 1000 }
    requires orders { AreOrders (counted_points cloud) orders.now }
    requires least { IsLeastAt (counted_points cloud) least }
    requires heights { AreHeightsUpTo least.y (counted_points cloud) heights.now }
    requires done { AreDone (counted_points cloud) least heights.now (length heights.now) side }
    requires limit { side ≤ 400000 }
    requires kept { AreKept side (counted_points cloud) least heights.now kept.since (length heights.now) (map leaf_of kept.leaves) }
    ensures leaves { IfOk result (λ leaves. AreFourLeavesOf side (counted_points cloud.entry) (map leaf_of leaves)) }
    ensures steps { steps.new ≤ steps.old + length heights.now * reads (length (counted_points cloud.entry)) 2 }
{
    if side == 0 {
        return Ok(AnswerList::new(alloc));
    }
    let from = first_reaching(least, heights, side - 1);
    let to = from.max(kept.since);
    let mut leaves = leaves_from(
        alloc,
        cloud,
        orders,
        least,
        heights,
        from,
        to,
        side - 1,
        steps,
    )?;
    append(&mut leaves, kept.leaves.as_slice())?;
    Ok(leaves)
}
