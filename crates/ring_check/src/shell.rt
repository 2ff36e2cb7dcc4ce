//! Shells: two spheres with one centre, and weighted pairs of points which show that no shell around the points is thinner.
ghost use Rattle.std.specs.Prelude.{◌↔◌, IsTrue};
ghost use Rattle.bounds_model.specs.Shell.{FitsShell, shell_size};
ghost use Rattle.bounds_model.specs.ShellAnswer as model;
ghost use Rattle.bounds_model.specs.ShellAnswer.{PassesShell};
ghost use Rattle.bounded_coords.specs.Clouds.{points_of};
ghost use Rattle.answers.specs.Answers.{shell_of};
ghost use Rattle.optimality.specs.Laws.{IsSmallestPrinted};

use crate::centres::Centre;
use crate::levels::Levels;
use crate::pairs::show_size;
use crate::values::has_value;
use answers::ShellAnswer;
use bounded_coords::Cloud3;
use optimality::shell::passing_shells_are_best;

/// The greatest sum of the weights.
const WEIGHT_LIMIT: u128 = 1 << 50;

/// The greatest denominator of a centre.
const DENOMINATOR_LIMIT: u128 = 1 << 50;

/// The greatest magnitude of a centre's numerators.
const NUMERATOR_LIMIT: u128 = 1 << 66;

/// Whether all points are between the spheres, and balanced pairs show that the difference of the squared radii is least: each centre
/// gives the pairs the same weighted sum of differences of squared distances, so no shell is thinner than their mean.
pub fn check_shell(cloud: Cloud3<'_>, a: &ShellAnswer) -> bool
    ensures passes { IsTrue result ↔ PassesShell (points_of cloud.entry) (shell_of a.now) }
    ensures best { IsTrue result → IsSmallestPrinted (FitsShell (points_of cloud.entry)) shell_size (model.shell_of (shell_of a.now)) a.now.size }
{
    passing_shells_are_best();
    let centre = Centre::in_space(&a.center);
    if !centre.is_within(DENOMINATOR_LIMIT, NUMERATOR_LIMIT) {
        return false;
    }
    // What needs no pass over the points comes first.
    if !show_size(cloud, a.pairs.as_slice(), &a.size, WEIGHT_LIMIT) {
        return false;
    }
    let levels = Levels::of(cloud, centre);
    if a.low != levels.least {
        return false;
    }
    if a.high != levels.greatest {
        return false;
    }
    has_value(&a.size, levels.greatest - levels.least, centre.w)
}
