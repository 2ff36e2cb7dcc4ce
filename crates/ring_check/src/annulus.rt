//! Annuli: two circles with one centre, and weighted pairs of points which show that no annulus around the points is thinner.
ghost use Rattle.std.specs.Prelude.{◌↔◌, IsTrue};
ghost use Rattle.bounds_model.specs.Asks.{ask_annulus, plane};
ghost use Rattle.bounds_model.specs.Answers.{Passes, IsBest, annulus};
ghost use Rattle.bounded_coords.specs.Clouds.{points_of};
ghost use Rattle.answers.specs.Answers.{annulus_of};

use crate::centres::Centre;
use crate::levels::Levels;
use crate::pairs::show_size;
use crate::values::has_value;
use answers::AnnulusAnswer;
use bounded_coords::Cloud2;
use optimality::answer::passing_answers_are_best;

/// The greatest sum of the weights.
const WEIGHT_LIMIT: u128 = 1 << 42;

/// The greatest denominator of a centre.
const DENOMINATOR_LIMIT: u128 = 1 << 42;

/// The greatest magnitude of a centre's numerators.
const NUMERATOR_LIMIT: u128 = 1 << 58;

/// Whether all points are between the circles, and balanced pairs show that the difference of the squared radii is least
/// (CGAL manual, Bounding Volumes, `Min_annulus_d`): each centre gives the pairs the same weighted sum of differences of squared
/// distances, so no annulus is thinner than their mean.
pub fn check_annulus(cloud: Cloud2<'_>, a: &AnnulusAnswer) -> bool
    ensures passes { IsTrue result ↔ Passes ask_annulus (plane (points_of cloud.entry)) (annulus (annulus_of a.now)) }
    ensures best { IsTrue result → IsBest ask_annulus (plane (points_of cloud.entry)) (annulus (annulus_of a.now)) }
{
    passing_answers_are_best();
    let centre = Centre::in_plane(&a.center);
    if !centre.is_within(DENOMINATOR_LIMIT, NUMERATOR_LIMIT) {
        return false;
    }
    if !show_size(cloud, a.pairs.as_slice(), &a.size, WEIGHT_LIMIT) {
        return false;
    }
    let levels = Levels::of(cloud, centre);
    if !has_value(&a.size, levels.greatest - levels.least, centre.w) {
        return false;
    }
    if !centre.has_squared_radius(&a.inner, levels.least) {
        return false;
    }
    centre.has_squared_radius(&a.outer, levels.greatest)
}
