//! The least side of so many squares that cover the points.
ghost use Rattle.std.specs.Prelude.{◌≡◌, ◌+◌, ◌*◌, ◌<◌, ◌≤◌, [], length};
ghost use Rattle.bounded_coords.specs.Clouds.{counted_points};
ghost use Rattle.corner_squares.specs.Extents.{IsPlaneExtent, IsRestBox};
ghost use Rattle.p_centres.specs.Sides.{IsBracket, IsStart, IsTried};

use crate::bounding_box::bounding_box;
use crate::tree::cover;
use answers::Leaf;
use arrayvec::ArrayVec;
use bounded_coords::{Counted, Point2, Steps};
use corner_squares::{Bounds, Square};
use std::sync::ledger::Ledger;

/// Whole sides between which the least one lies.
#[derive(Drop)]
pub(crate) struct Bracket {
    /// No smaller side serves.
    pub(crate) low: u32,
    /// Squares of this side cover the points.
    pub(crate) high: u32,
    /// Such squares.
    pub(crate) squares: ArrayVec<Square, 3>,
    /// The leaves of the tree at a side less by 1 than the low one.
    pub(crate) leaves: ArrayVec<Leaf, 16>,
}

/// The least side of `p` squares that cover the points: the low and the high one are the same. At most 20 sides are tried.
pub(crate) fn least_side<L: Ledger>(
    cloud: Counted<'_, Point2>,
    p: u8,
    steps: &mut Steps<L>,
) -> Bracket
    requires some { 1 ≤ p }
    requires few { p ≤ 3 }
    ensures bracket { IsBracket (counted_points cloud.entry) p result }
    ensures least { result.low ≡ result.high }
    ensures steps { steps.new ≤ steps.old + 428 * length (counted_points cloud.entry) }
{
    let bounds = bounding_box(cloud, steps);
    let mut bracket = first_bracket(cloud, p, bounds, steps);
    'halving: while bracket.low < bracket.high {
        let side = bracket.low + (bracket.high - bracket.low) / 2;
        try_side(cloud, p, side, &mut bracket, steps);
    }
    bracket
}

/// The bracket after a first trial, at a side less by 1 than the longer side of the box: one square needs that, so it needs no
/// other trial.
fn first_bracket<L: Ledger>(
    cloud: Counted<'_, Point2>,
    p: u8,
    bounds: Bounds,
    steps: &mut Steps<L>,
) -> Bracket
    requires some { 1 ≤ p }
    requires few { p ≤ 3 }
    requires bounds { IsRestBox (counted_points cloud) [] bounds }
    ensures bracket { IsBracket (counted_points cloud.entry) p result }
    ensures steps { steps.new ≤ steps.old + 21 * length (counted_points cloud.entry) }
{
    let mut bracket = start(bounds);
    if bracket.high == 0 {
        return bracket;
    }
    let side = bracket.high - 1;
    try_side(cloud, p, side, &mut bracket, steps);
    bracket
}

/// The bracket before any trial: one square is as wide as the longer side of the bounding box.
fn start(bounds: Bounds) -> Bracket
    requires across { IsPlaneExtent bounds.across }
    requires up { IsPlaneExtent bounds.up }
    ensures { IsStart bounds result }
{
    let high = bounds.across.length().max(bounds.up.length());
    let mut squares = ArrayVec::new();
    squares.push(bounds.corner_square(0, high));
    Bracket {
        low: 0,
        high,
        squares,
        leaves: ArrayVec::new(),
    }
}

/// Halves the bracket at a side within it.
fn try_side<L: Ledger>(
    cloud: Counted<'_, Point2>,
    p: u8,
    side: u32,
    bracket: &mut Bracket,
    steps: &mut Steps<L>,
)
    requires some { 1 ≤ p }
    requires few { p ≤ 3 }
    requires bracket { IsBracket (counted_points cloud) p bracket.old }
    requires low { bracket.old.low ≤ side }
    requires high { side < bracket.old.high }
    ensures bracket { IsBracket (counted_points cloud.entry) p bracket.new }
    ensures tried { IsTried side bracket.old bracket.new }
    ensures steps { steps.new ≤ steps.old + 21 * length (counted_points cloud.entry) }
{
    let mut squares = ArrayVec::new();
    let mut leaves = ArrayVec::new();
    if cover(cloud, side, p - 1, &mut squares, &mut leaves, steps) {
        bracket.high = side;
        bracket.squares = squares;
        return;
    }
    // What is refuted here is refuted at each smaller side too. The leaves of the last refuted side are the answer's.
    bracket.low = side + 1;
    bracket.leaves = leaves;
}
