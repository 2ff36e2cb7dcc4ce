//! Collinear points.
ghost use Rattle.bounds_model.specs.AnnulusAnswer.{PassesAnnulus};
ghost use Rattle.bounded_coords.specs.Clouds.{points_of};
ghost use Rattle.answers.specs.Answers.{annulus_of};
ghost use Rattle.pair_weights.specs.CommonFactors.{HaveLowestWeights};
ghost use Rattle.min_annulus.specs.Lines.{AreCollinear, IsMiddle};

use crate::answering::annulus_around;
use crate::extremes::extremes_of;
use crate::linear_forms::LinearForm;
use crate::pairs::Pair;
use answers::AnnulusAnswer;
use arrayvec::ArrayVec;
use bounded_coords::Cloud2;
use pair_weights::push_weighted;

/// The annulus around the middle between the least and the greatest of points on one line. The outer circle goes through these two,
/// the inner one through a point nearest to the middle.
pub(crate) fn collinear_annulus(cloud: Cloud2<'_>, least: u32, greatest: u32) -> AnnulusAnswer
    requires { AreCollinear (points_of cloud) least greatest }
    ensures passes { PassesAnnulus (points_of cloud.entry) (annulus_of result) }
    ensures center { IsMiddle (points_of cloud.entry) least greatest result.center }
    ensures weights { HaveLowestWeights result.pairs.items }
{
    let form = LinearForm::around_middle(cloud.at(least), cloud.at(greatest));
    let extremes = extremes_of(cloud, form);
    let mut pairs = ArrayVec::new();
    if extremes.high == extremes.low {
        let same = Pair::of(cloud, extremes.near, extremes.near);
        push_weighted(&mut pairs, same.first, same.second, 1);
        return annulus_around(cloud, form, extremes, &pairs);
    }
    let whole = Pair::of(cloud, greatest, least);
    let done = Pair::of(cloud, extremes.near, least);
    let left = Pair::of(cloud, least, extremes.near);
    let right = Pair::of(cloud, greatest, extremes.near);
    push_weighted(
        &mut pairs,
        left.first,
        left.second,
        whole.difference.dot(right.difference),
    );
    push_weighted(
        &mut pairs,
        right.first,
        right.second,
        whole.difference.dot(done.difference),
    );
    annulus_around(cloud, form, extremes, &pairs)
}
