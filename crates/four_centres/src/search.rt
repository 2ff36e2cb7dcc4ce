//! The least side of four squares that cover the points.
ghost use Rattle.std.specs.Prelude.{◌≡◌, ℕ, ◌+◌, ◌-◌, ◌*◌, ◌/◌, ◌<◌, ◌≤◌, ℤ, pos, ◌++◌, length, map, false, All, IsTrue, IfOk, OnOk, slice_index_or};
ghost use Rattle.bounded_coords.specs.Clouds.{counted_points};
ghost use Rattle.answers.specs.Answers.{leaf_of};
ghost use Rattle.four_centres.specs.Orders.{AreOrders};
ghost use Rattle.corner_squares.specs.LeastPoints.{IsLeastAt};
ghost use Rattle.four_centres.specs.Windows.{reads};
ghost use Rattle.four_centres.specs.Heights.{IsBeyond, IsDone, AreHeightsUpTo};
ghost use Rattle.four_centres.specs.Search.{IsBestSoFar, IsAtMost, IsTaken, IsLeft, AreDone, IsFirstReaching, AreLeavesFrom, AreKept};

use crate::heights::is_beyond;
use crate::orders::Orders;
use crate::trials::{Trial, try_square};
use answers::{AnswerList, Leaf, Leaves};
use arrayvec::ArrayVec;
use bounded_coords::{Counted, OutOfMemory, Point2, Steps};
use corner_squares::{Least, Square};
use std::alloc::Global;
use std::sync::ledger::Ledger;

/// The smallest squares so far.
#[derive(Drop)]
pub(crate) struct Best {
    /// Squares of this side cover the points.
    pub(crate) side: u32,
    /// Such squares.
    pub(crate) squares: ArrayVec<Square, 4>,
}

/// The leaves at a side less by 1 of the heights since the best side was found.
#[derive(Drop)]
pub(crate) struct Kept {
    /// The index of the first of these heights.
    pub(crate) since: usize,
    /// Sixteen leaves for each of them that is not beyond the least point.
    pub(crate) leaves: Leaves,
}

/// Whether squares of this side cover the points, with the first one at this height: they are then the best ones.
fn try_height<L: Ledger>(
    cloud: Counted<'_, Point2>,
    orders: &Orders,
    least: Least,
    height: i32,
    side: u32,
    best: &mut Best,
    steps: &mut Steps<L>,
) -> bool
    requires orders { AreOrders (counted_points cloud) orders.now }
    requires least { IsLeastAt (counted_points cloud) least }
    requires height { IsAtMost least height }
    requires side { side ≤ 400000 }
    ensures taken { IsTrue result → IsTaken (counted_points cloud.entry) side best.new }
    ensures left { result ≡ false → IsLeft (counted_points cloud.entry) least height side best.old best.new }
    ensures steps { steps.new ≤ steps.old + reads (length (counted_points cloud.entry)) 2 }
{
    match try_square(cloud, orders, least.square(height, side), steps) {
        Trial::Covered(squares) => {
            best.side = side;
            best.squares = squares;
            true
        }
        Trial::Refuted(_) => false,
    }
}

/// The least side with the first square at this height, where it is less than the best one so far.
fn improve<L: Ledger>(
    cloud: Counted<'_, Point2>,
    orders: &Orders,
    least: Least,
    height: i32,
    best: &mut Best,
    steps: &mut Steps<L>,
)
    requires orders { AreOrders (counted_points cloud) orders.now }
    requires least { IsLeastAt (counted_points cloud) least }
    requires height { IsAtMost least height }
    requires best { IsBestSoFar (counted_points cloud) best.old }
    ensures best { IsBestSoFar (counted_points cloud.entry) best.new }
    ensures less { best.new.side ≤ best.old.side }
    ensures done { IsDone (counted_points cloud.entry) least height best.new.side }
    ensures steps { steps.new ≤ steps.old + 20 * reads (length (counted_points cloud.entry)) 2 }
{
    if best.side == 0 {
        return;
    }
    // At most heights the best side stays as it is, and that costs one trial.
    let side = best.side - 1;
    if is_beyond(least, height, side) {
        return;
    }
    if try_height(cloud, orders, least, height, side, best, steps) {
        halve(cloud, orders, least, height, best, steps);
    }
}

/// The least side with the first square at this height, which is at most the best one so far.
fn halve<L: Ledger>(
    cloud: Counted<'_, Point2>,
    orders: &Orders,
    least: Least,
    height: i32,
    best: &mut Best,
    steps: &mut Steps<L>,
)
    requires orders { AreOrders (counted_points cloud) orders.now }
    requires least { IsLeastAt (counted_points cloud) least }
    requires height { IsAtMost least height }
    requires best { IsBestSoFar (counted_points cloud) best.old }
    ensures best { IsBestSoFar (counted_points cloud.entry) best.new }
    ensures less { best.new.side ≤ best.old.side }
    ensures done { IsDone (counted_points cloud.entry) least height best.new.side }
    ensures steps { steps.new ≤ steps.old + 19 * reads (length (counted_points cloud.entry)) 2 }
{
    let mut low = 0;
    'halving: while low < best.side {
        let side = low + (best.side - low) / 2;
        if !try_height(cloud, orders, least, height, side, best, steps) {
            low = side + 1;
        }
    }
}

/// One height more: where the best side stays, its leaves are kept, and where it improves, those kept before are let go.
fn visit<L: Ledger>(
    alloc: Global,
    cloud: Counted<'_, Point2>,
    orders: &Orders,
    least: Least,
    heights: &[i32],
    i: usize,
    best: &mut Best,
    kept: &mut Kept,
    steps: &mut Steps<L>,
) -> Result<(), OutOfMemory>
    requires orders { AreOrders (counted_points cloud) orders.now }
    requires least { IsLeastAt (counted_points cloud) least }
    requires heights { AreHeightsUpTo least.y (counted_points cloud) heights.now }
    requires few { length heights.now ≤ 1000 }
    requires inside { i < length heights.now }
    requires best { IsBestSoFar (counted_points cloud) best.old }
    requires kept { AreKept best.old.side (counted_points cloud) least heights.now kept.old.since i (map leaf_of kept.old.leaves) }
    ensures best { IsBestSoFar (counted_points cloud.entry) best.new }
    ensures less { best.new.side ≤ best.old.side }
    ensures done { OnOk result (IsDone (counted_points cloud.entry) least (slice_index_or heights.now i (pos 0)) best.new.side) }
    ensures kept { OnOk result (AreKept best.new.side (counted_points cloud.entry) least heights.now kept.new.since (i + 1) (map leaf_of kept.new.leaves)) }
    ensures steps { steps.new ≤ steps.old + 20 * reads (length (counted_points cloud.entry)) 2 }
{
    if best.side == 0 {
        return Ok(());
    }
    let side = best.side - 1;
    let height = heights[i];
    if is_beyond(least, height, side) {
        return Ok(());
    }
    match try_square(cloud, orders, least.square(height, side), steps) {
        Trial::Refuted(own) => {
            append(&mut kept.leaves, own.as_slice())?;
            Ok(())
        }
        Trial::Covered(squares) => {
            best.side = side;
            best.squares = squares;
            halve(cloud, orders, least, height, best, steps);
            kept.since = i + 1;
            kept.leaves = AnswerList::new(alloc);
            Ok(())
        }
    }
}

/// The least side over all heights, and the leaves that were found at it. A sample of the heights goes first, so that most of
/// the others are refuted in one trial.
pub(crate) fn search<L: Ledger>(
    alloc: Global,
    cloud: Counted<'_, Point2>,
    orders: &Orders,
    least: Least,
    heights: &[i32],
    best: &mut Best,
    steps: &mut Steps<L>,
) -> Result<Kept, OutOfMemory>
    requires orders { AreOrders (counted_points cloud) orders.now }
    requires least { IsLeastAt (counted_points cloud) least }
    requires heights { AreHeightsUpTo least.y (counted_points cloud) heights.now }
    requires few { length heights.now ≤ 1000 }
    requires best { IsBestSoFar (counted_points cloud) best.old }
    ensures best { IsBestSoFar (counted_points cloud.entry) best.new }
    ensures done { OnOk result (AreDone (counted_points cloud.entry) least heights.now (length heights.now) best.new.side) }
    ensures kept { IfOk result
        (λ kept. AreKept best.new.side (counted_points cloud.entry) least heights.now kept.since (length heights.now) (map leaf_of kept.leaves)) }
    ensures steps { steps.new
        ≤ steps.old + (length heights.now / 16 + length heights.now) * (20 * reads (length (counted_points cloud.entry)) 2) }
{
    'sample: for i in 0..heights.len() / 16 {
        improve(cloud, orders, least, heights[16 * i + 8], best, steps);
    }
    let mut kept = Kept {
        since: 0,
        leaves: AnswerList::new(alloc),
    };
    'heights: for i in 0..heights.len() {
        visit(
            alloc, cloud, orders, least, heights, i, best, &mut kept, steps,
        )?;
    }
    Ok(kept)
}

/// The index of the first height that is not beyond the least point, or how many there are.
pub(crate) fn first_reaching(least: Least, heights: &[i32], side: u32) -> usize
    requires heights { All (IsAtMost least) heights.now }
    ensures { IsFirstReaching least heights.now side result }
{
    'heights: for i in 0..heights.len() {
        if !is_beyond(least, heights[i], side) {
            return i;
        }
    }
    heights.len()
}

/// Sixteen leaves at this side for each height from the one to the other. No four squares of this side cover the points.
pub(crate) fn leaves_from<L: Ledger>(
    alloc: Global,
    cloud: Counted<'_, Point2>,
    orders: &Orders,
    least: Least,
    heights: &[i32],
    from: usize,
    to: usize,
    side: u32,
    steps: &mut Steps<L>,
) -> Result<Leaves, OutOfMemory>
    requires orders { AreOrders (counted_points cloud) orders.now }
    requires least { IsLeastAt (counted_points cloud) least }
    requires heights { All (IsAtMost least) heights.now }
    requires few { length heights.now ≤ 1000 }
    requires from { from ≤ to }
    requires to { to ≤ length heights.now }
    requires reaches { (k : ℕ) (d : ℤ) → from ≤ k → k < length heights.now → ¬ IsBeyond least (slice_index_or heights.now k d) side }
    requires done { AreDone (counted_points cloud) least heights.now (length heights.now) (side + 1) }
    requires side { side ≤ 400000 }
    ensures leaves { IfOk result (λ leaves. AreLeavesFrom side (counted_points cloud.entry) least heights.now from (to - from) (map leaf_of leaves)) }
    ensures steps { steps.new ≤ steps.old + length heights.now * reads (length (counted_points cloud.entry)) 2 }
{
    let mut leaves = AnswerList::new(alloc);
    'heights: for i in from..to {
        match try_square(cloud, orders, least.square(heights[i], side), steps) {
            Trial::Covered(_) => unreachable!(),
            Trial::Refuted(own) => append(&mut leaves, own.as_slice())?,
        }
    }
    Ok(leaves)
}

/// Appends leaves.
pub(crate) fn append(leaves: &mut Leaves, own: &[Leaf]) -> Result<(), OutOfMemory>
    requires { length leaves.old + length own.now ≤ 1000000 }
    ensures { OnOk result (leaves.new ≡ leaves.old ++ own.now) }
{
    'leaves: for i in 0..own.len() {
        leaves.push(own[i])?;
    }
    Ok(())
}
