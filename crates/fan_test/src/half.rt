//! Whether a fan over half a turn holds.
ghost use Rattle.std.specs.Prelude.{◌≡◌, ◌↔◌, IsTrue, length, All};
ghost use Rattle.bounds_model.specs.Fans.{IsShort, HoldsHalf, half_directions, NamesPoints};
ghost use Rattle.bounded_coords.specs.Clouds.{points_of};
ghost use Rattle.answers.specs.Answers.{half_fan_of};

use crate::chain::{Chain, EAST, WEST, encloses, leads};
use crate::direction::Direction;
use crate::ends::End;
use crate::fans::{half_direction, narrow};
use answers::HalfFan;
use bounded_coords::{Cloud2, Point2};

/// Whether a fan over half a turn holds for the points.
pub fn holds_half(cloud: Cloud2<'_>, fan: &HalfFan) -> bool
    requires numbers { NamesPoints (points_of cloud) (half_fan_of fan.now) }
    requires short { All IsShort (half_directions (half_fan_of fan.now)) }
    ensures { IsTrue result ↔ HoldsHalf (points_of cloud.entry) (half_fan_of fan.now) }
{
    let high = HalfChain {
        fan,
        cloud,
        end: End::High,
    };
    if !leads(&high, EAST, WEST) {
        return false;
    }
    let low = HalfChain {
        fan,
        cloud,
        end: End::Low,
    };
    encloses(&high, cloud) && encloses(&low, cloud)
}

/// A fan's directions, aimed at one of their ends, and the points at that end.
#[derive(Drop)]
struct HalfChain<'a> {
    fan: &'a HalfFan,
    cloud: Cloud2<'a>,
    end: End,
    ghost numbers: { NamesPoints (points_of cloud) (half_fan_of fan.now) },
    ghost short: { All IsShort (half_directions (half_fan_of fan.now)) },
}

impl Chain for HalfChain<'_> {
    ghost use Rattle.std.specs.Prelude.{length};
    ghost use Rattle.bounds_model.specs.Plane.{point_at};
    ghost use Rattle.bounds_model.specs.Fans.{half_directions};
    ghost use Rattle.bounded_coords.specs.Clouds.{points_of};
    ghost use Rattle.answers.specs.Answers.{half_fan_of};
    ghost use Rattle.fan_test.specs.Ends.{aimed, half_number};

    ghost cones = { λ c. length c.fan.now.cones };

    ghost directions = { λ c i. aimed c.end (point_at (half_directions (half_fan_of c.fan.now)) i) };

    ghost points = { λ c i. point_at (points_of c.cloud) (half_number c.end (half_fan_of c.fan.now) i) };

    ghost cloud = { λ c. points_of c.cloud };

    fn len(&self) -> u32 {
        self.fan.cones.len()
    }

    fn direction(&self, i: u32) -> Direction {
        self.end.aim(narrow(half_direction(self.fan, i)))
    }

    fn number(&self, i: u32) -> u32 {
        let cone = self.fan.cones.at(i);
        self.end.choose(cone.hi, cone.lo)
    }

    fn point(&self, i: u32) -> Point2 {
        *self.cloud.at(self.number(i))
    }
}
