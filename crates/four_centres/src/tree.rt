//! The tree of corners below squares that are placed.
ghost use Rattle.std.specs.Prelude.{◌≡◌, ◌+◌, ◌*◌, ◌^◌, ◌<◌, ◌≤◌, length, false, All, IsTrue, IfSome, IsNone};
ghost use Rattle.arrayvec.specs.ArrayVec.{array_vec_len};
ghost use Rattle.bounded_coords.specs.Clouds.{counted_points};
ghost use Rattle.corner_squares.specs.Squares.{IsCovered};
ghost use Rattle.four_centres.specs.Orders.{AreOrders};
ghost use Rattle.four_centres.specs.Ends.{extent_of};
ghost use Rattle.corner_squares.specs.Covers.{IsPlaced, IsCover, AreMore, IsRefuted};
ghost use Rattle.four_centres.specs.Windows.{IsWindow, IsTight, reads};

use crate::ends::{Ends, free_ends};
use crate::orders::Orders;
use crate::surveys::{Finding, survey};
use answers::Leaf;
use arrayvec::ArrayVec;
use bounded_coords::{Counted, Point2, Steps};
use corner_squares::{Bounds, Square};
use std::sync::ledger::Ledger;

/// The ends of what is left over, in both orders.
#[derive(Clone, Copy)]
pub(crate) struct Window {
    /// From left to right.
    pub(crate) across: Ends,
    /// From below.
    pub(crate) up: Ends,
}

impl Window {
    /// The bounding box.
    fn bounds(self, orders: &Orders) -> Bounds
        requires across { self.across.low < length orders.now.across.items × self.across.high < length orders.now.across.items }
        requires up { self.up.low < length orders.now.up.items × self.up.high < length orders.now.up.items }
        requires ranks_across { All (λ key. key.rank ≤ 400000) orders.now.across.items }
        requires ranks_up { All (λ key. key.rank ≤ 400000) orders.now.up.items }
        ensures across { result.across ≡ extent_of orders.now.across.items self.across }
        ensures up { result.up ≡ extent_of orders.now.up.items self.up }
    {
        Bounds {
            across: self.across.extent(&orders.across),
            up: self.up.extent(&orders.up),
        }
    }
}

/// The ends of what the squares leave over, in both orders.
fn free_window<L: Ledger>(
    cloud: Counted<'_, Point2>,
    orders: &Orders,
    squares: &[Square],
    window: Window,
    steps: &mut Steps<L>,
) -> Option<Window>
    requires orders { AreOrders (counted_points cloud) orders.now }
    requires window { IsWindow (counted_points cloud) orders.now squares.now window }
    ensures tight { IfSome result (λ inner. IsTight (counted_points cloud.entry) orders.now squares.now inner) }
    ensures covered { IsNone result → All (IsCovered squares.now) (counted_points cloud.entry) }
    ensures steps { steps.new ≤ steps.old + 2 * length (counted_points cloud.entry) }
{
    let Some(across) = free_ends(cloud, &orders.across, squares, window.across, steps) else {
        return None;
    };
    let Some(up) = free_ends(cloud, &orders.up, squares, window.up, steps) else {
        return None;
    };
    Some(Window { across, up })
}

/// Whether `depth` + 1 squares of this side cover the points that the placed ones leave over. Where they do, they are placed.
/// Where they do not, the leaves of the tree below the placed squares are appended: where squares cover points, a square in
/// a corner of their bounding box can be one of them, so each corner is tried.
pub(crate) fn cover<L: Ledger>(
    cloud: Counted<'_, Point2>,
    orders: &Orders,
    side: u32,
    depth: u8,
    window: Window,
    placed: &mut ArrayVec<Square, 4>,
    leaves: &mut ArrayVec<Leaf, 16>,
    steps: &mut Steps<L>,
) -> bool
    requires side { side ≤ 400000 }
    requires orders { AreOrders (counted_points cloud) orders.now }
    requires window { IsWindow (counted_points cloud) orders.now placed.old.items window }
    requires placed { All (IsPlaced side) placed.old.items }
    requires room { array_vec_len placed.old + depth < 4 }
    requires shallow { depth ≤ 2 }
    requires leaf_room { array_vec_len leaves.old + 4 ^ depth ≤ 16 }
    ensures covered { IsTrue result → IsCover (counted_points cloud.entry) side (array_vec_len placed.old + depth + 1) placed.new.items }
    ensures kept { IsTrue result → AreMore placed.old.items placed.new.items }
    ensures refuted { result ≡ false
        → IsRefuted (counted_points cloud.entry) side depth placed.old.items placed.new.items leaves.old.items leaves.new.items }
    ensures steps { steps.new ≤ steps.old + reads (length (counted_points cloud.entry)) depth }
{
    if depth == 0 {
        return cover_rest(cloud, orders, side, window, placed, leaves, steps);
    }
    let Some(inner) = free_window(cloud, orders, placed.as_slice(), window, steps) else {
        return true;
    };
    let bounds = inner.bounds(orders);
    for corner in 0..4 {
        placed.push(bounds.corner_square(corner, side));
        if cover(cloud, orders, side, depth - 1, inner, placed, leaves, steps) {
            return true;
        }
        placed.pop();
    }
    false
}

/// Whether one square of this side covers the points that the placed ones leave over: it is placed, or the leaf is appended.
fn cover_rest<L: Ledger>(
    cloud: Counted<'_, Point2>,
    orders: &Orders,
    side: u32,
    window: Window,
    placed: &mut ArrayVec<Square, 4>,
    leaves: &mut ArrayVec<Leaf, 16>,
    steps: &mut Steps<L>,
) -> bool
    requires side { side ≤ 400000 }
    requires orders { AreOrders (counted_points cloud) orders.now }
    requires window { IsWindow (counted_points cloud) orders.now placed.old.items window }
    requires placed { All (IsPlaced side) placed.old.items }
    requires room { array_vec_len placed.old < 4 }
    requires leaf_room { array_vec_len leaves.old < 16 }
    ensures covered { IsTrue result → IsCover (counted_points cloud.entry) side (array_vec_len placed.old + 1) placed.new.items }
    ensures kept { IsTrue result → AreMore placed.old.items placed.new.items }
    ensures refuted { result ≡ false
        → IsRefuted (counted_points cloud.entry) side 0 placed.old.items placed.new.items leaves.old.items leaves.new.items }
    ensures steps { steps.new ≤ steps.old + length (counted_points cloud.entry) + 2 }
{
    let squares = placed.as_slice();
    let Some(ends) = free_ends(cloud, &orders.across, squares, window.across, steps) else {
        return true;
    };
    match survey(cloud, &orders.across, squares, ends, side, steps) {
        Finding::Around(bounds) => {
            placed.push(bounds.corner_square(0, side));
            true
        }
        Finding::Far(leaf) => {
            leaves.push(leaf);
            false
        }
    }
}
