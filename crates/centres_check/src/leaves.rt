//! The leaves below squares that are placed.
ghost use Rattle.std.specs.Prelude.{◌≡◌, ◌≢◌, ◌↔◌, ◌+◌, ◌-◌, ◌^◌, ◌≤◌, length, map, All, IsTrue};
ghost use Rattle.bounds_model.specs.Plane.{point_at};
ghost use Rattle.bounds_model.specs.CentresAnswer.{AreFar};
ghost use Rattle.bounded_coords.specs.Clouds.{points_of};
ghost use Rattle.answers.specs.Answers.{leaf_of};
ghost use Rattle.corner_squares.specs.Squares.{left_over};
ghost use Rattle.corner_squares.specs.Extents.{IsFound};
ghost use Rattle.corner_squares.specs.Trees.{AreLeavesAt};
ghost use Rattle.centres_check.specs.CentresLimits.{NamesPoints, IsFreePair};
ghost use Rattle.arrayvec.specs.ArrayVec.{array_vec_len};

use crate::boxes::{box_at, boxes_below};
use answers::Leaf;
use arrayvec::ArrayVec;
use bounded_coords::{Cloud2, Point2};
use corner_squares::{Bounds, Square, any_contains};

/// Whether these are the leaves below the squares that are placed: those of a tree of this depth.
pub(crate) fn are_leaves_below(
    leaves: &[Leaf],
    side: u32,
    depth: u8,
    placed: &mut ArrayVec<Square, 3>,
    cloud: Cloud2<'_>,
) -> bool
    requires count { length leaves.now ≡ 4 ^ depth }
    requires names { All (NamesPoints (length (points_of cloud))) (map leaf_of leaves.now) }
    requires limit { side ≤ 2000000 }
    requires room { array_vec_len placed.old + depth ≤ 3 }
    requires shallow { depth ≤ 2 }
    ensures { IsTrue result
        ↔ AreLeavesAt side depth (points_of cloud.entry) (left_over placed.old.items (points_of cloud.entry)) (map leaf_of leaves.now) }
{
    let found = box_at(depth, placed.as_slice(), cloud);
    are_leaves_in(leaves, side, depth, found, placed, cloud)
}

/// Whether these are the leaves below a node of the tree that has placed these squares, where the bounding box of what they
/// leave over was found: a quarter of them are below each of its corners.
fn are_leaves_in(
    leaves: &[Leaf],
    side: u32,
    depth: u8,
    found: Option<Bounds>,
    placed: &mut ArrayVec<Square, 3>,
    cloud: Cloud2<'_>,
) -> bool
    requires count { length leaves.now ≡ 4 ^ depth }
    requires names { All (NamesPoints (length (points_of cloud))) (map leaf_of leaves.now) }
    requires limit { side ≤ 2000000 }
    requires room { array_vec_len placed.old + depth ≤ 3 }
    requires shallow { depth ≤ 2 }
    requires found { depth ≢ 0 → IsFound (points_of cloud) placed.old.items (length (points_of cloud)) found }
    ensures leaves { IsTrue result
        ↔ AreLeavesAt side depth (points_of cloud.entry) (left_over placed.old.items (points_of cloud.entry)) (map leaf_of leaves.now) }
    ensures same { IsTrue result → placed.new.items ≡ placed.old.items }
{
    if depth == 0 {
        return is_leaf(&leaves[0], side, placed.as_slice(), cloud);
    }
    let Some(bounds) = found else {
        return false;
    };
    let boxes = boxes_below(depth, placed.as_slice(), bounds, side, cloud);
    let part = leaves.len() / 4;
    for corner in 0..4 {
        placed.push(bounds.corner_square(corner, side));
        let from = usize::from(corner) * part;
        let below = &leaves[from..from + part];
        let found = boxes[usize::from(corner)];
        if !are_leaves_in(below, side, depth - 1, found, placed, cloud) {
            return false;
        }
        placed.pop();
    }
    true
}

/// Whether the leaf's points are in none of the squares, and differ by more than a side in x or in y.
fn is_leaf(leaf: &Leaf, side: u32, placed: &[Square], cloud: Cloud2<'_>) -> bool
    requires { NamesPoints (length (points_of cloud)) (leaf_of leaf.now) }
    ensures { IsTrue result ↔ IsFreePair side placed.now (point_at (points_of cloud.entry) leaf.now.first)
        (point_at (points_of cloud.entry) leaf.now.second) }
{
    let (p, q) = (cloud.at(leaf.first), cloud.at(leaf.second));
    if any_contains(placed, p) {
        return false;
    }
    if any_contains(placed, q) {
        return false;
    }
    are_far(p, q, side)
}

/// Whether the points differ by more than a side in x or in y.
fn are_far(p: &Point2, q: &Point2, side: u32) -> bool
    ensures { IsTrue result ↔ AreFar side p.now q.now }
{
    q.x().abs_diff(p.x()) > side || q.y().abs_diff(p.y()) > side
}
