//! The ball as an answer.
ghost use Rattle.std.specs.Prelude.{◌≡◌, ◌≤◌, length, map};
ghost use Rattle.bounds_model.specs.BallAnswer.{PassesCircle, PassesSphere};
ghost use Rattle.corral.specs.Supported.{supports_of};
ghost use Rattle.answers.specs.Answers.{weighted_of, circle_of, sphere_of};
ghost use Rattle.min_ball.specs.Balls.{listed};

use crate::Ball;
use answers::{BallAnswer2, BallAnswer3, Weighted};
use arrayvec::ArrayVec;
use corral::Support;
use kernel_laws::{Kernel, Plane, Space};

impl<'a> Ball<'a, Plane> {
    ghost use Rattle.min_ball.specs.SmallestBalls.{points_in, support_of, size_of};

    /// The circle as an answer.
    pub fn answer(&self) -> BallAnswer2
        ensures passes { PassesCircle (points_in self.now) (circle_of result) }
        ensures size { result.size ≡ size_of self.now }
        ensures supports { map weighted_of result.supports.items ≡ listed (support_of self.now) }
    {
        let first = self.support.first(0);
        BallAnswer2 {
            size: self.size,
            center: self.sums.plane_centre(first),
            supports: weighted(&self.support),
        }
    }
}

impl<'a> Ball<'a, Space> {
    ghost use Rattle.min_ball.specs.SmallestBalls.{points_in, support_of, size_of};

    /// The sphere as an answer.
    pub fn answer(&self) -> BallAnswer3
        ensures passes { PassesSphere (points_in self.now) (sphere_of result) }
        ensures size { result.size ≡ size_of self.now }
        ensures supports { map weighted_of result.supports.items ≡ listed (support_of self.now) }
    {
        let first = self.support.first(0);
        BallAnswer3 {
            size: self.size,
            center: self.sums.space_centre(first),
            supports: weighted(&self.support),
        }
    }
}

/// The supports as an answer lists them.
fn weighted<K: Kernel, const N: usize>(support: &Support<'_, K>) -> ArrayVec<Weighted, N>
    requires { length (supports_of support.now) ≤ N }
    ensures { map weighted_of result.items ≡ listed support.now }
{
    let mut supports = ArrayVec::new();
    'list: for i in 0..support.len() {
        supports.push(Weighted {
            point: support.id(i).first,
            weight: support.weight(i),
        });
    }
    supports
}
