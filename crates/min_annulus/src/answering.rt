//! The answer: the annulus around a centre, with the pairs that show its size to be least.
ghost use Rattle.std.specs.Prelude.{◌≤ℤ◌, pos, map};
ghost use Rattle.bounds_model.specs.AnnulusAnswer.{PassesAnnulus};
ghost use Rattle.bounds_model.specs.Space.{SamePlace, flat_ratio};
ghost use Rattle.bounded_coords.specs.Clouds.{points_of};
ghost use Rattle.min_annulus.specs.LinearForms.{IsLinearForm, centre_of};
ghost use Rattle.min_annulus.specs.Extremes.{AreExtremesOf};
ghost use Rattle.pair_weights.specs.CommonFactors.{HaveLowestWeights};
ghost use Rattle.answers.specs.Answers.{annulus_of, pair_of};
ghost use Rattle.min_annulus.specs.Witnesses.{ShowSize};

use crate::linear_forms::LinearForm;
use answers::{AnnulusAnswer, WeightedPair};
use arrayvec::ArrayVec;
use bounded_coords::Cloud2;
use exact_fractions::Frac;
use pair_weights::extremes::Extremes;
use pair_weights::in_lowest_terms;

/// The annulus around a form's centre, from its nearest to its farthest point, with pairs that show its size to be least.
pub(crate) fn annulus_around(
    cloud: Cloud2<'_>,
    form: LinearForm,
    extremes: Extremes,
    pairs: &ArrayVec<WeightedPair, 3>,
) -> AnnulusAnswer
    requires form { IsLinearForm form }
    requires some { pos 1 ≤ℤ form.w }
    requires extremes { AreExtremesOf (points_of cloud) form extremes }
    requires pairs { ShowSize (points_of cloud) form extremes (map pair_of pairs.now.items) }
    ensures passes { PassesAnnulus (points_of cloud.entry) (annulus_of result) }
    ensures center { SamePlace (flat_ratio result.center) (flat_ratio (centre_of form)) }
    ensures weights { HaveLowestWeights result.pairs.items }
{
    AnnulusAnswer {
        size: Frac::new((extremes.high - extremes.low) as u128, form.w as u128),
        center: form.center(),
        inner: form.squared_radius(cloud.at(extremes.near)),
        outer: form.squared_radius(cloud.at(extremes.far)),
        pairs: in_lowest_terms(pairs),
    }
}
