//! Trials of a side, with the first square placed.
ghost use Rattle.std.specs.Prelude.{◌+◌, ◌≤◌, length};
ghost use Rattle.bounded_coords.specs.Clouds.{counted_points};
ghost use Rattle.four_centres.specs.Orders.{AreOrders};
ghost use Rattle.corner_squares.specs.Covers.{IsPlaced};
ghost use Rattle.four_centres.specs.Windows.{reads};
ghost use Rattle.four_centres.specs.Search.{IsTrial};

use crate::ends::Ends;
use crate::orders::Orders;
use crate::tree::{Window, cover};
use answers::Leaf;
use arrayvec::ArrayVec;
use bounded_coords::{Counted, Point2, Steps};
use corner_squares::Square;
use std::sync::ledger::Ledger;

/// What a trial shows.
#[derive(Drop)]
pub(crate) enum Trial {
    /// These squares cover the points.
    Covered(ArrayVec<Square, 4>),
    /// No three squares cover what the first one leaves over.
    Refuted(ArrayVec<Leaf, 16>),
}

/// Whether the square and three others of its side cover the points.
pub(crate) fn try_square<L: Ledger>(
    cloud: Counted<'_, Point2>,
    orders: &Orders,
    first: Square,
    steps: &mut Steps<L>,
) -> Trial
    requires orders { AreOrders (counted_points cloud) orders.now }
    requires side { first.side ≤ 400000 }
    requires placed { IsPlaced first.side first }
    ensures trial { IsTrial (counted_points cloud.entry) first result }
    ensures steps { steps.new ≤ steps.old + reads (length (counted_points cloud.entry)) 2 }
{
    let all = Ends {
        low: 0,
        high: cloud.len() - 1,
    };
    let window = Window {
        across: all,
        up: all,
    };
    let mut placed = ArrayVec::new();
    let mut leaves = ArrayVec::new();
    placed.push(first);
    if cover(
        cloud,
        orders,
        first.side,
        2,
        window,
        &mut placed,
        &mut leaves,
        steps,
    ) {
        return Trial::Covered(placed);
    }
    Trial::Refuted(leaves)
}
