//! The shell of least difference of the squared radii.
ghost use Rattle.bounded_coords.specs.Clouds.{points_of};
ghost use Rattle.bounds_model.specs.ShellAnswer.{PassesShell};
ghost use Rattle.answers.specs.Answers.{shell_of};
ghost use Rattle.pair_weights.specs.CommonFactors.{HaveLowestWeights};
ghost use Rattle.min_shell.specs.Targets.{IsTarget};
ghost use Rattle.min_shell.specs.Tetrahedra.{IsTetrahedron};
ghost use Rattle.min_shell.specs.OpenCoordinates.{IsZeroWhereDetermined, KeepsDirections};

use crate::answering::shell_around;
use crate::bases::Basis;
use crate::extremes::extremes_of;
use crate::targets::Target;
use crate::tetrahedra::Tetrahedron;
use crate::vertices::Vertex;
use answers::ShellAnswer;
use bounded_coords::Cloud3;

/// The shell of least difference of the squared radii that holds all points, with weights without a common factor. Where all points are in
/// one plane, on one line or in one place, a coordinate that those before it determine at the points is 0 at the centre. It takes no
/// memory, and passes over the points once at each exchange.
pub fn shell(cloud: Cloud3<'_>) -> ShellAnswer
    ensures passes { PassesShell (points_of cloud.entry) (shell_of result) }
    ensures weights { HaveLowestWeights result.pairs.items }
    ensures determined { IsZeroWhereDetermined (points_of cloud.entry) result.center }
{
    let basis = Basis::of(cloud);
    settle(cloud, basis.target(), basis.tetrahedron(cloud))
}

/// Exchanges pairs for higher ones until none is above the plane of the four: then the plane gives the best centre.
fn settle(cloud: Cloud3<'_>, target: Target, start: Tetrahedron) -> ShellAnswer
    requires target { IsTarget target }
    requires start { IsTetrahedron (points_of cloud) target start }
    requires directions { KeepsDirections (points_of cloud) start }
    ensures passes { PassesShell (points_of cloud.entry) (shell_of result) }
    ensures weights { HaveLowestWeights result.pairs.items }
    ensures determined { IsZeroWhereDetermined (points_of cloud.entry) result.center }
{
    let mut tetrahedron = start;
    'exchange: loop {
        let form = tetrahedron.form();
        let extremes = extremes_of(cloud, form);
        let pair = Vertex::of(cloud, extremes.far, extremes.near);
        if form.over(pair.vector) <= form.over(tetrahedron.d.vector) {
            return shell_around(cloud, form, extremes, &tetrahedron.weighted());
        }
        tetrahedron = tetrahedron.exchange(target, pair);
    }
}
