//! The annulus of least difference of the squared radii.
ghost use Rattle.bounds_model.specs.AnnulusAnswer.{PassesAnnulus};
ghost use Rattle.bounded_coords.specs.Clouds.{points_of};
ghost use Rattle.answers.specs.Answers.{annulus_of};
ghost use Rattle.pair_weights.specs.CommonFactors.{HaveLowestWeights};
ghost use Rattle.min_annulus.specs.Lines.{HasMiddle};
ghost use Rattle.min_annulus.specs.Triangles.{IsTriangle};

use crate::answering::annulus_around;
use crate::collinear::collinear_annulus;
use crate::extremes::extremes_of;
use crate::linear_forms::LinearForm;
use crate::pairs::Pair;
use crate::target_triangle::Triangle;
use answers::AnnulusAnswer;
use bounded_coords::Cloud2;

/// The annulus of least difference of the squared radii that holds all points (CGAL manual, Bounding Volumes, `Min_annulus_d`). Where
/// all points are on one line, its centre is the middle between the least and the greatest of them. It takes no memory, and at each
/// exchange passes over the points once. The weights have no common factor.
pub fn annulus(cloud: Cloud2<'_>) -> AnnulusAnswer
    ensures passes { PassesAnnulus (points_of cloud.entry) (annulus_of result) }
    ensures middle { HasMiddle (points_of cloud.entry) result.center }
    ensures weights { HaveLowestWeights result.pairs.items }
{
    let order = extremes_of(cloud, LinearForm::order());
    let whole = Pair::of(cloud, order.far, order.near);
    let across = extremes_of(cloud, LinearForm::across(whole.difference));
    if across.high == across.low {
        return collinear_annulus(cloud, order.near, order.far);
    }
    let side = Pair::of(cloud, across.far, across.near);
    settle(cloud, Triangle::start(cloud, whole, side))
}

/// Exchanges pairs for higher ones until none is above the plane of the three: then the plane gives the best centre.
fn settle(cloud: Cloud2<'_>, start: Triangle) -> AnnulusAnswer
    requires { IsTriangle (points_of cloud) start }
    ensures passes { PassesAnnulus (points_of cloud.entry) (annulus_of result) }
    ensures weights { HaveLowestWeights result.pairs.items }
{
    let mut triangle = start;
    'exchange: loop {
        let form = triangle.form();
        let extremes = extremes_of(cloud, form);
        let pair = Pair::of(cloud, extremes.far, extremes.near);
        // The form has one value at the three vertices, so any of them stands for its plane.
        if form.over(pair.difference) <= form.over(triangle.a.difference) {
            return annulus_around(cloud, form, extremes, &triangle.weighted());
        }
        triangle = triangle.exchange(pair);
    }
}
