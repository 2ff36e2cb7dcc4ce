//! Pairs of points by their numbers.
ghost use Rattle.std.specs.Prelude.{◌≡◌, ◌<◌, length};
ghost use Rattle.bounded_coords.specs.Clouds.{points_of};
ghost use Rattle.min_annulus.specs.Pairs.{IsPair};

use crate::difference_vectors::DifferenceVector;
use bounded_coords::Cloud2;

/// The numbers of two points, and their difference.
#[derive(Clone, Copy)]
pub(crate) struct Pair {
    pub(crate) first: u32,
    pub(crate) second: u32,
    pub(crate) difference: DifferenceVector,
}

impl Pair {
    /// The pair of the points with these numbers.
    pub(crate) fn of(cloud: Cloud2<'_>, first: u32, second: u32) -> Pair
        requires first { first < length (points_of cloud) }
        requires second { second < length (points_of cloud) }
        ensures pair { IsPair (points_of cloud.entry) result }
        ensures first { result.first ≡ first }
        ensures second { result.second ≡ second }
    {
        Pair {
            first,
            second,
            difference: DifferenceVector::between(cloud.at(first), cloud.at(second)),
        }
    }
}
