//! The call.
ghost use Rattle.bounds_model.specs.DistanceAnswer.{PassesDistance};
ghost use Rattle.bounded_coords.specs.Clouds.{points_of};
ghost use Rattle.answers.specs.Answers.{distance_of};

use crate::pairs::listed;
use crate::sums::sums_over;
use answers::DistanceAnswer;
use bounded_coords::Cloud3;
use corral::{Items, settle};
use kernel_laws::{NormPotential, Space};

/// The least distance of a point of the hull of p from a point of the hull of q, CGAL's `Polytope_distance_d`. It takes no memory.
pub fn distance(p: Cloud3<'_>, q: Cloud3<'_>) -> DistanceAnswer
    ensures { PassesDistance (points_of p.entry) (points_of q.entry) (distance_of result) }
{
    let support = settle::<Space, NormPotential>(Space, Items::Differences(p, q));
    let sums = sums_over(&support);
    DistanceAnswer {
        size: sums.size(support.first(0), support.second(0)),
        from: sums.first_mean(),
        to: sums.second_mean(),
        direction: sums.direction(),
        pairs: listed(&support),
    }
}
