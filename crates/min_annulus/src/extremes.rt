//! The points where a linear form is greatest and least.
ghost use Rattle.bounded_coords.specs.Clouds.{points_of};
ghost use Rattle.min_annulus.specs.LinearForms.{IsLinearForm};
ghost use Rattle.min_annulus.specs.Extremes.{AreExtremesOf, AreInPlane};

use crate::linear_forms::LinearForm;
use bounded_coords::Cloud2;
use pair_weights::extremes::Extremes;

/// The greatest and the least value of a form over all points, and the numbers of points that have them, in one pass.
pub(crate) fn extremes_of(cloud: Cloud2<'_>, form: LinearForm) -> Extremes
    requires { IsLinearForm form }
    ensures extremes { AreExtremesOf (points_of cloud.entry) form result }
    ensures inside { AreInPlane (points_of cloud.entry) }
{
    let mut extremes = Extremes::first(form.at(cloud.at(0)));
    for i in 1..cloud.len() {
        extremes = extremes.with(i, form.at(cloud.at(i)));
    }
    extremes
}
