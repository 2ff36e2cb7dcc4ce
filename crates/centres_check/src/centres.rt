//! One to three centres: squares of one size that cover the points, and leaves which show that no smaller ones do.
ghost use Rattle.std.specs.Prelude.{◌≡◌, ◌↔◌, ◌-◌, ◌^◌, ◌≤◌, length, map, All, IsTrue};
ghost use Rattle.bounds_model.specs.Asks.{ask_centres, plane};
ghost use Rattle.bounds_model.specs.Answers.{Passes, IsBest, centres};
ghost use Rattle.bounds_model.specs.CentresAnswer.{AreLeaves};
ghost use Rattle.bounded_coords.specs.Clouds.{points_of};
ghost use Rattle.answers.specs.Answers.{leaf_of, centres_of};
ghost use Rattle.centres_check.specs.CentresLimits.{NamesPoints};

use crate::cover::{cover, is_within_limits, side};
use crate::leaves::are_leaves_below;
use answers::{CentresAnswer, Leaf};
use arrayvec::ArrayVec;
use bounded_coords::Cloud2;
use optimality::answer::passing_answers_are_best;

/// Whether there are p squares that cover the points, and leaves which show that no smaller ones do: a leaf is two points too
/// far apart for one square, after the squares of its range in a tree whose nodes try the four corners of a bounding box
/// (CGAL manual, Geometric Optimisation, `rectangular_p_center_2`). For one square the tree is one leaf.
pub fn check_centres(cloud: Cloud2<'_>, p: u8, a: &CentresAnswer) -> bool
    requires some { 1 ≤ p }
    requires few { p ≤ 3 }
    ensures passes { IsTrue result ↔ Passes (ask_centres p) (plane (points_of cloud.entry)) (centres (centres_of a.now)) }
    ensures best { IsTrue result → IsBest (ask_centres p) (plane (points_of cloud.entry)) (centres (centres_of a.now)) }
{
    passing_answers_are_best();
    let squares = a.squares.as_slice();
    let leaves = a.leaves.as_slice();
    if !is_within_limits(cloud, p, &a.size, squares, leaves) {
        return false;
    }
    cover(squares, &a.size, cloud) && are_leaves(leaves, side(&a.size), p, cloud)
}

/// Whether the leaves show that no p squares of a smaller side cover the points.
fn are_leaves(leaves: &[Leaf], side: u32, p: u8, cloud: Cloud2<'_>) -> bool
    requires some { 1 ≤ p }
    requires few { p ≤ 3 }
    requires limit { side ≤ 2000000 }
    requires names { All (NamesPoints (length (points_of cloud))) (map leaf_of leaves.now) }
    ensures { IsTrue result ↔ AreLeaves side p (points_of cloud.entry) (map leaf_of leaves.now) }
{
    if side == 0 {
        return leaves.is_empty();
    }
    if leaves.len() != leaf_count(p) {
        return false;
    }
    are_leaves_below(leaves, side - 1, p - 1, &mut ArrayVec::new(), cloud)
}

/// How many leaves the tree for p squares has.
fn leaf_count(p: u8) -> usize
    requires some { 1 ≤ p }
    requires few { p ≤ 3 }
    ensures { result ≡ 4 ^ (p - 1) }
{
    match p {
        1 => 1,
        2 => 4,
        _ => 16,
    }
}
