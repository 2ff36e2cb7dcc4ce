//! A ball with the supports that determine it.
ghost use Rattle.std.specs.Prelude.{◌≡◌, ◌+◌, ◌≤◌, length};
ghost use Rattle.bounded_coords.specs.Clouds.{points_of};
ghost use Rattle.ball_sums.specs.DeterminedBalls.{DetermineBall, DetermineBall-prop, AreSupportSums, AreSupportSums-prop, places_of};
ghost use Rattle.min_ball.specs.Balls.{coordinates, listed};

use crate::sums::sums_over;
use ball_sums::Sums;
use bounded_coords::Cloud;
use corral::{Items, Support, settle};
use exact_fractions::Frac;
use kernel_laws::{BallPotential, Kernel};

/// The smallest ball around some points: a circle in the plane, a sphere in space. It borrows the points.
#[derive(Drop)]
pub struct Ball<'a, K: Kernel> {
    pub(crate) support: Support<'a, K>,
    pub(crate) sums: Sums,
    pub(crate) size: Frac,
    ghost determined: { DetermineBall K.DIM (coordinates K.place support) (listed support) size } by { DetermineBall-prop _ _ _ _ },
    ghost summed: { AreSupportSums K.DIM (coordinates K.place support) (listed support) sums } by { AreSupportSums-prop _ _ _ _ },
}

impl<'a, K: Kernel> Ball<'a, K> {
    ghost use Rattle.min_ball.specs.SmallestBalls.{points_in, places_in, support_of, size_of};

    /// The smallest ball around the points of a cloud.
    pub(crate) fn around(kernel: K, cloud: Cloud<'a, K::P>) -> Self
        ensures points { points_in result ≡ points_of cloud.entry }
        ensures determined { DetermineBall K.DIM (places_of K.place cloud.entry) (listed (support_of result)) (size_of result) }
        ensures few { length (listed (support_of result)) ≤ K.DIM + 1 }
    {
        let support = settle::<K, BallPotential>(kernel, Items::Points(cloud));
        let sums = sums_over(&kernel, &support);
        let size = sums.size();
        Ball {
            support,
            sums,
            size,
        }
    }

    /// The points that determine the ball, at most as many as the dimension and one, with their weights: the ball's centre is
    /// their weighted mean.
    pub fn support(&self) -> &Support<'a, K>
        ensures value { result.now ≡ support_of self.now }
        ensures determined { DetermineBall K.DIM (places_in K.place self.now) (listed result.now) (size_of self.now) }
        ensures few { length (listed result.now) ≤ K.DIM + 1 }
    {
        &self.support
    }

    /// The squared radius.
    pub fn size(&self) -> Frac
        ensures value { result ≡ size_of self.now }
        ensures determined { DetermineBall K.DIM (places_in K.place self.now) (listed (support_of self.now)) result }
    {
        self.size
    }
}
