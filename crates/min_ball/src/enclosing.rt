//! The two calls.
ghost use Rattle.std.specs.Prelude.{◌≡◌, ◌≤◌, length};
ghost use Rattle.bounds_model.specs.Space.{flat};
ghost use Rattle.bounded_coords.specs.Clouds.{points_of};
ghost use Rattle.ball_sums.specs.DeterminedBalls.{DetermineBall, places_of};
ghost use Rattle.min_ball.specs.Balls.{listed};
ghost use Rattle.min_ball.specs.SmallestBalls.{points_in, support_of, size_of};

use crate::Ball;
use bounded_coords::{Cloud2, Cloud3};
use kernel_laws::{Plane, Space};

/// The smallest circle around the points, CGAL's `Min_circle_2`. It takes no memory.
pub fn circle<'a>(cloud: Cloud2<'a>) -> Ball<'a, Plane>
    ensures points { points_in result ≡ points_of cloud.entry }
    ensures determined { DetermineBall 2 (places_of flat cloud.entry) (listed (support_of result)) (size_of result) }
    ensures few { length (listed (support_of result)) ≤ 3 }
{
    Ball::around(Plane, cloud)
}

/// The smallest sphere around the points, CGAL's `Min_sphere_d`. It takes no memory.
pub fn sphere<'a>(cloud: Cloud3<'a>) -> Ball<'a, Space>
    ensures points { points_in result ≡ points_of cloud.entry }
    ensures determined { DetermineBall 3 (points_of cloud.entry) (listed (support_of result)) (size_of result) }
    ensures few { length (listed (support_of result)) ≤ 4 }
{
    Ball::around(Space, cloud)
}
