//! Squares of a given side: as many cover the points, or a tree of corners shows that they do not.
ghost use Rattle.std.specs.Prelude.{◌≡◌, ◌+◌, ◌*◌, ◌^◌, ◌<◌, ◌≤◌, length, false, All, IsTrue};
ghost use Rattle.arrayvec.specs.ArrayVec.{array_vec_len};
ghost use Rattle.bounded_coords.specs.Clouds.{counted_points};
ghost use Rattle.corner_squares.specs.Trees.{nodes};
ghost use Rattle.corner_squares.specs.Covers.{IsPlaced, IsCover};
ghost use Rattle.p_centres.specs.Covers.{IsFirstRefuted};

use crate::surveys::{Finding, survey, whole};
use answers::Leaf;
use arrayvec::ArrayVec;
use bounded_coords::{Counted, Point2, Steps};
use corner_squares::Square;
use std::sync::ledger::Ledger;

/// Whether `depth` + 1 squares of this side cover the points that the placed ones leave over. Where they do, they are placed.
/// Where they do not, the leaves of the tree below the placed squares are appended: where squares cover points, a square in
/// a corner of their bounding box can be one of them, so each corner is tried.
pub(crate) fn cover<L: Ledger>(
    cloud: Counted<'_, Point2>,
    side: u32,
    depth: u8,
    placed: &mut ArrayVec<Square, 3>,
    leaves: &mut ArrayVec<Leaf, 16>,
    steps: &mut Steps<L>,
) -> bool
    requires side { side ≤ 400000 }
    requires placed { All (IsPlaced side) placed.old.items }
    requires room { array_vec_len placed.old + depth < 3 }
    requires leaf_room { array_vec_len leaves.old + 4 ^ depth ≤ 16 }
    ensures covered { IsTrue result → IsCover (counted_points cloud.entry) side (array_vec_len placed.old + depth + 1) placed.new.items }
    ensures refuted { result ≡ false
        → IsFirstRefuted (counted_points cloud.entry) side depth placed.old.items placed.new.items leaves.old.items leaves.new.items }
    ensures steps { steps.new ≤ steps.old + nodes depth * length (counted_points cloud.entry) }
{
    if depth == 0 {
        return cover_rest(cloud, side, placed, leaves, steps);
    }
    let Some(bounds) = whole(cloud, placed.as_slice(), steps) else {
        return true;
    };
    // Of at most three squares that cover what is left over, one can be moved into a corner of its bounding box and still covers all that
    // it did. So a side at which all four corners fail is refuted.
    for corner in 0..4 {
        placed.push(bounds.corner_square(corner, side));
        if cover(cloud, side, depth - 1, placed, leaves, steps) {
            return true;
        }
        placed.pop();
    }
    false
}

/// Whether one square of this side covers the points that the placed ones leave over: it is placed, or the leaf is appended.
fn cover_rest<L: Ledger>(
    cloud: Counted<'_, Point2>,
    side: u32,
    placed: &mut ArrayVec<Square, 3>,
    leaves: &mut ArrayVec<Leaf, 16>,
    steps: &mut Steps<L>,
) -> bool
    requires side { side ≤ 400000 }
    requires placed { All (IsPlaced side) placed.old.items }
    requires room { array_vec_len placed.old < 3 }
    requires leaf_room { array_vec_len leaves.old < 16 }
    ensures covered { IsTrue result → IsCover (counted_points cloud.entry) side (array_vec_len placed.old + 1) placed.new.items }
    ensures refuted { result ≡ false
        → IsFirstRefuted (counted_points cloud.entry) side 0 placed.old.items placed.new.items leaves.old.items leaves.new.items }
    ensures steps { steps.new ≤ steps.old + length (counted_points cloud.entry) }
{
    match survey(cloud, placed.as_slice(), side, steps) {
        Finding::Nothing => true,
        Finding::Around(bounds) => {
            placed.push(bounds.corner_square(0, side));
            true
        }
        Finding::Far(leaf) => {
            leaves.push(leaf);
            false
        }
    }
}
