//! An item of least slack.
ghost use Rattle.std.specs.Prelude.{◌≡◌, pos};
ghost use Rattle.bounds_model.specs.Space.{vector, dot as product};
ghost use Rattle.kernel_laws.specs.Vectors.{sum_of};
ghost use Rattle.corral.specs.Moments.{AreWithin, slack_at};
ghost use Rattle.corral.specs.LeastSlacks.{HasLeastSlack};

use crate::items::{Id, Items};
use crate::sums::Moments;
use bounded_coords::{Cloud, Measure};
use kernel_laws::{Kernel, Potential};
use std::marker::PhantomData;

/// The slack of each point, as seen from an origin.
#[derive(Drop)]
struct Slacks<'a, K: Kernel, T: Potential> {
    kernel: &'a K,
    origin: &'a K::P,
    moments: Moments,
    slack: PhantomData<T>,
    ghost within: { AreWithin T.SQUARE K.DIM moments },
}

impl<'a, K: Kernel, T: Potential> Measure<K::P> for Slacks<'a, K, T> {
    type Value = i128;

    ghost measured = { λ s p. slack_at T.SQUARE s.moments (vector (K.place s.origin.now) (K.place p)) };

    fn at(&self, point: &K::P) -> i128 {
        let vector = self.kernel.diff(self.origin, point);
        self.moments.slack::<K, T>(self.kernel, vector)
    }
}

/// How far each point lies along the weighted sum, as seen from an origin.
#[derive(Drop)]
struct Along<'a, K: Kernel, T: Potential> {
    kernel: &'a K,
    origin: &'a K::P,
    moments: Moments,
    slack: PhantomData<T>,
    ghost within: { AreWithin T.SQUARE K.DIM moments },
}

impl<'a, K: Kernel, T: Potential> Measure<K::P> for Along<'a, K, T> {
    type Value = i128;

    ghost measured = { λ s p. product (vector (K.place s.origin.now) (K.place p)) (sum_of s.moments.sum) };

    fn at(&self, point: &K::P) -> i128 {
        let vector = self.kernel.diff(self.origin, point);
        self.moments.along::<K, T>(vector)
    }
}

/// The point whose item has the least slack.
pub(crate) fn point_of_least_slack<K: Kernel, T: Potential>(
    kernel: &K,
    cloud: Cloud<'_, K::P>,
    moments: Moments,
) -> Id
    requires { AreWithin T.SQUARE K.DIM moments }
    ensures { HasLeastSlack {K = K} T.SQUARE K.place (Items.Points cloud.entry) moments result }
{
    let slacks = Slacks::<K, T> {
        kernel,
        origin: cloud.at(0),
        moments,
        slack: PhantomData,
    };
    let number = cloud.first_least(&slacks);
    Id {
        first: number,
        second: number,
    }
}

/// The difference with the least slack for distances: from a point of q that is farthest along the weighted sum to a point
/// of p that is least far.
pub(crate) fn difference_of_least_slack<K: Kernel, T: Potential>(
    kernel: &K,
    p: Cloud<'_, K::P>,
    q: Cloud<'_, K::P>,
    moments: Moments,
) -> Id
    requires within { AreWithin T.SQUARE K.DIM moments }
    requires quadratic { T.SQUARE ≡ pos 0 }
    ensures { HasLeastSlack {K = K} T.SQUARE K.place (Items.Differences p.entry q.entry) moments result }
{
    let along = Along::<K, T> {
        kernel,
        origin: q.at(0),
        moments,
        slack: PhantomData,
    };
    Id {
        first: p.first_least(&along),
        second: q.first_greatest(&along),
    }
}
