//! Squares of one size that cover all points.
ghost use Rattle.std.specs.Prelude.{◌≡◌, ◌+◌, ◌*◌, ◌≤◌, length, All};
ghost use Rattle.bounds_model.specs.CentresAnswer.{PassesCentres};
ghost use Rattle.bounded_coords.specs.Clouds.{counted_points};
ghost use Rattle.answers.specs.Answers.{centres_of};
ghost use Rattle.p_centres.specs.Leaves.{IsOnlyLeaf};

use crate::sides::least_side;
use answers::CentresAnswer;
use bounded_coords::{Counted, Point2, Steps};
use corner_squares::{filled_up, square_centres, square_radius};
use std::sync::ledger::Ledger;

/// The least size of `p` squares that cover all points, with such squares, and leaves which show that no smaller ones do:
/// CGAL's `rectangular_p_center_2` for one to three centres. It takes no memory, and reads the points some hundred times.
pub fn centres<L: Ledger>(cloud: Counted<'_, Point2>, p: u8, steps: &mut Steps<L>) -> CentresAnswer
    requires some { 1 ≤ p }
    requires few { p ≤ 3 }
    ensures passes { PassesCentres p (counted_points cloud.entry) (centres_of result) }
    ensures only_leaf { p ≡ 1 → All (IsOnlyLeaf (counted_points cloud.entry)) (centres_of result).leaves }
    ensures steps { steps.new ≤ steps.old + 1000 * length (counted_points cloud.entry) }
{
    let least = least_side(cloud, p, steps);
    let squares = filled_up(least.squares, p);
    CentresAnswer {
        size: square_radius(least.high),
        squares: square_centres(least.high, squares.as_slice()),
        leaves: least.leaves,
    }
}
