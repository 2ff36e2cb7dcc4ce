//! The answer: the shell around a centre, with the pairs that show its size to be least.
ghost use Rattle.std.specs.Prelude.{◌≡◌, ◌^◌, ◌≤ℤ◌, pos, map};
ghost use Rattle.integers.specs.Size.{Size};
ghost use Rattle.bounds_model.specs.Ranges.{IsSpaceRatio};
ghost use Rattle.bounded_coords.specs.Clouds.{points_of};
ghost use Rattle.answers.specs.Answers.{pair_of};
ghost use Rattle.bounds_model.specs.ShellAnswer.{PassesShell, power};
ghost use Rattle.answers.specs.Answers.{shell_of};
ghost use Rattle.min_shell.specs.LinearForms.{IsLinearForm, centre_of};
ghost use Rattle.min_shell.specs.Extremes.{AreExtremesOf};
ghost use Rattle.pair_weights.specs.CommonFactors.{HaveLowestWeights};
ghost use Rattle.min_shell.specs.Witnesses.{ShowSize};
ghost use Rattle.min_shell.specs.OpenCoordinates.{IsZeroWhereDetermined};

use crate::lifted_vectors::squared_length;
use crate::linear_forms::LinearForm;
use answers::{ShellAnswer, WeightedPair};
use arrayvec::ArrayVec;
use bounded_coords::{Cloud3, Point3};
use exact_fractions::{Frac, Homog3};
use pair_weights::extremes::Extremes;
use pair_weights::in_lowest_terms;

/// The shell around a form's centre, from its nearest to its farthest point, with pairs that show its size to be least.
pub(crate) fn shell_around(
    cloud: Cloud3<'_>,
    form: LinearForm,
    extremes: Extremes,
    pairs: &ArrayVec<WeightedPair, 4>,
) -> ShellAnswer
    requires form { IsLinearForm form }
    requires some { pos 1 ≤ℤ form.w }
    requires extremes { AreExtremesOf (points_of cloud) form extremes }
    requires pairs { ShowSize (points_of cloud) form extremes (map pair_of pairs.now.items) }
    requires determined { IsZeroWhereDetermined (points_of cloud) (centre_of form) }
    ensures passes { PassesShell (points_of cloud.entry) (shell_of result) }
    ensures weights { HaveLowestWeights result.pairs.items }
    ensures determined { IsZeroWhereDetermined (points_of cloud.entry) result.center }
{
    let center = form.center();
    ShellAnswer {
        size: Frac::new((extremes.high - extremes.low) as u128, form.w as u128),
        center,
        low: level_around(center, cloud.at(extremes.near)),
        high: level_around(center, cloud.at(extremes.far)),
        pairs: in_lowest_terms(pairs),
    }
}

/// A point's level: the centre's denominator times its squared distance, less a term that is the same for all points.
fn level_around(center: Homog3, p: &Point3) -> i128
    requires x { Size (2 ^ 66) center.x }
    requires y { Size (2 ^ 66) center.y }
    requires z { Size (2 ^ 66) center.z }
    requires w { Size (2 ^ 50) center.w }
    ensures value { result ≡ power center p.now }
    ensures size { Size (2 ^ 90) result }
{
    let square = center.w() * squared_length(p) as i128;
    let across = center.x() * p.x() as i128 + center.y() * p.y() as i128;
    square - 2 * (across + center.z() * p.z() as i128)
}
