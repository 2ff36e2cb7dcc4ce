//! Four centres: squares of one size that cover the points, and leaves at each height which show that no smaller ones do.
ghost use Rattle.std.specs.Prelude.{◌≡◌, ◌↔◌, ◌+◌, ◌*◌, ◌%◌, ◌≤◌, length, map, All, IsTrue};
ghost use Rattle.bounds_model.specs.Centres.{FitsCentres, centres_size};
ghost use Rattle.bounds_model.specs.CentresAnswer.{cover_of, outside};
ghost use Rattle.bounds_model.specs.FourAnswer.{first_square, AreFourLeaves, AreLeavesByHeight, PassesFour};
ghost use Rattle.optimality.specs.Laws.{IsSmallestPrinted};
ghost use Rattle.bounded_coords.specs.Clouds.{points_of};
ghost use Rattle.answers.specs.Answers.{leaf_of, four_of};
ghost use Rattle.corner_squares.specs.LeastPoints.{point_of};
ghost use Rattle.corner_squares.specs.Trees.{AreLeavesAt};
ghost use Rattle.centres_check.specs.CentresLimits.{NamesPoints};
ghost use Rattle.centres_check.specs.Heights.{sixteen_from};

use crate::cover::{cover, is_within_limits, side};
use crate::heights::{above, least_point, lowest_from};
use crate::leaves::are_leaves_below;
use answers::{FourAnswer, Leaf};
use arrayvec::ArrayVec;
use bounded_coords::Cloud2;
use corner_squares::Least;
use optimality::centres::passing_four_are_best;

/// Sixteen leaves for each of a thousand heights.
const MOST_LEAVES: usize = 16_000;

/// Whether there are four squares that cover the points, and leaves which show that no smaller ones do: sixteen at each height that
/// a first square over the least point can have, each of two points too far apart for one square (CGAL manual, Geometric
/// Optimisation, `rectangular_p_center_2`).
pub fn check_four(cloud: Cloud2<'_>, a: &FourAnswer) -> bool
    ensures passes { IsTrue result ↔ PassesFour (points_of cloud.entry) (four_of a.now) }
    ensures best { IsTrue result → IsSmallestPrinted (FitsCentres 4 (points_of cloud.entry)) centres_size (cover_of (four_of a.now)) (four_of a.now).size }
{
    passing_four_are_best();
    let squares = a.squares.as_slice();
    let leaves = a.leaves.as_slice();
    if leaves.len() > MOST_LEAVES {
        return false;
    }
    if !is_within_limits(cloud, 4, &a.size, squares, leaves) {
        return false;
    }
    cover(squares, &a.size, cloud) && are_leaves(leaves, side(&a.size), cloud)
}

/// Whether the leaves show that no four squares of a smaller side cover the points: height by height, from the lowest up.
fn are_leaves(leaves: &[Leaf], side: u32, cloud: Cloud2<'_>) -> bool
    requires limit { side ≤ 2000000 }
    requires names { All (NamesPoints (length (points_of cloud))) (map leaf_of leaves.now) }
    ensures { IsTrue result ↔ AreFourLeaves side (points_of cloud.entry) (map leaf_of leaves.now) }
{
    if side == 0 {
        return leaves.is_empty();
    }
    if leaves.len() % 16 != 0 {
        return false;
    }
    are_leaves_by_height(leaves, side - 1, cloud)
}

/// Whether there are sixteen leaves for each height, and each of them holds below the first square there.
fn are_leaves_by_height(leaves: &[Leaf], side: u32, cloud: Cloud2<'_>) -> bool
    requires count { length leaves.now % 16 ≡ 0 }
    requires limit { side ≤ 2000000 }
    requires names { All (NamesPoints (length (points_of cloud))) (map leaf_of leaves.now) }
    ensures { IsTrue result ↔ AreLeavesByHeight side (points_of cloud.entry) (map leaf_of leaves.now) }
{
    let least = least_point(cloud);
    let mut from = least.reach(side);
    'heights: for k in 0..leaves.len() / 16 {
        let Some(height) = lowest_from(cloud, from, least.y) else {
            return false;
        };
        if !are_leaves_at(leaves, k, least, height, side, cloud) {
            return false;
        }
        from = above(height);
    }
    lowest_from(cloud, from, least.y).is_none()
}

/// Whether these sixteen leaves hold below the first square at this height.
fn are_leaves_at(
    leaves: &[Leaf],
    k: usize,
    least: Least,
    height: i32,
    side: u32,
    cloud: Cloud2<'_>,
) -> bool
    requires count { 16 * k + 16 ≤ length leaves.now }
    requires limit { side ≤ 2000000 }
    requires names { All (NamesPoints (length (points_of cloud))) (map leaf_of leaves.now) }
    ensures { IsTrue result
        ↔ AreLeavesAt side 2 (points_of cloud.entry) (outside (first_square side (point_of least) height) (points_of cloud.entry)) (sixteen_from k (map leaf_of leaves.now)) }
{
    let mut placed = ArrayVec::new();
    placed.push(least.square(height, side));
    are_leaves_below(&leaves[16 * k..16 * k + 16], side, 2, &mut placed, cloud)
}
