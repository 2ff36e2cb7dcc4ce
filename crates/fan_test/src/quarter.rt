//! Whether a fan over a quarter turn holds.
ghost use Rattle.std.specs.Prelude.{◌≡◌, ◌↔◌, IsTrue, length, All};
ghost use Rattle.bounds_model.specs.Plane.{point_at};
ghost use Rattle.bounds_model.specs.Fans.{IsShort, HoldsQuarter, quarter_directions, NamesAllPoints};
ghost use Rattle.bounded_coords.specs.Clouds.{points_of};
ghost use Rattle.fan_test.specs.Chains.{Turns};
ghost use Rattle.fan_test.specs.Ends.{AreEnds, turned, quarter_end, quarter_number};
ghost use Rattle.answers.specs.Answers.{quarter_fan_of, quarter_cone_of};
ghost use Rattle.fan_test.specs.declared.ends.End.TheVariants.{High, Low};

use crate::chain::{Chain, EAST, NORTH, encloses, leads};
use crate::direction::Direction;
use crate::ends::End;
use crate::fans::{narrow, quarter_direction};
use answers::{QuarterCone, QuarterFan};
use bounded_coords::{Cloud2, Point2};

/// Whether a fan over a quarter turn holds for the points.
pub fn holds_quarter(cloud: Cloud2<'_>, fan: &QuarterFan) -> bool
    requires numbers { NamesAllPoints (points_of cloud) (quarter_fan_of fan.now) }
    requires short { All IsShort (quarter_directions (quarter_fan_of fan.now)) }
    ensures { IsTrue result ↔ HoldsQuarter (points_of cloud.entry) (quarter_fan_of fan.now) }
{
    let high = QuarterChain {
        fan,
        cloud,
        across: false,
        end: End::High,
    };
    if !leads(&high, EAST, NORTH) {
        return false;
    }
    are_ends(cloud, fan, false) && are_ends(cloud, fan, true)
}

/// Whether the points of the cones are highest and lowest, for the directions or for those turned by a right angle.
fn are_ends(cloud: Cloud2<'_>, fan: &QuarterFan, across: bool) -> bool
    requires numbers { NamesAllPoints (points_of cloud) (quarter_fan_of fan.now) }
    requires short { All IsShort (quarter_directions (quarter_fan_of fan.now)) }
    requires turns { Turns (point_at (quarter_directions (quarter_fan_of fan.now))) (length fan.now.cones) }
    ensures { let f = quarter_fan_of fan.now in IsTrue result ↔ AreEnds (points_of cloud.entry)
        (λ i. turned across (point_at (quarter_directions f) i)) (quarter_number across High f) (quarter_number across Low f) (length fan.now.cones) }
{
    let high = QuarterChain {
        fan,
        cloud,
        across,
        end: End::High,
    };
    let low = QuarterChain {
        fan,
        cloud,
        across,
        end: End::Low,
    };
    encloses(&high, cloud) && encloses(&low, cloud)
}

/// A fan's directions, or these turned by a right angle, aimed at one of their ends, and the points at that end.
#[derive(Drop)]
struct QuarterChain<'a> {
    fan: &'a QuarterFan,
    cloud: Cloud2<'a>,
    across: bool,
    end: End,
    ghost numbers: { NamesAllPoints (points_of cloud) (quarter_fan_of fan.now) },
    ghost short: { All IsShort (quarter_directions (quarter_fan_of fan.now)) },
}

impl Chain for QuarterChain<'_> {
    ghost use Rattle.std.specs.Prelude.{length};
    ghost use Rattle.bounds_model.specs.Plane.{point_at};
    ghost use Rattle.bounds_model.specs.Fans.{quarter_directions};
    ghost use Rattle.bounded_coords.specs.Clouds.{points_of};
    ghost use Rattle.answers.specs.Answers.{quarter_fan_of};
    ghost use Rattle.fan_test.specs.Ends.{aimed, turned, quarter_number};

    ghost cones = { λ c. length c.fan.now.cones };

    ghost directions = { λ c i. aimed c.end (turned c.across (point_at (quarter_directions (quarter_fan_of c.fan.now)) i)) };

    ghost points = { λ c i. point_at (points_of c.cloud) (quarter_number c.across c.end (quarter_fan_of c.fan.now) i) };

    ghost cloud = { λ c. points_of c.cloud };

    fn len(&self) -> u32 {
        self.fan.cones.len()
    }

    fn direction(&self, i: u32) -> Direction {
        let d = narrow(quarter_direction(self.fan, i));
        let d = if self.across { d.turned() } else { d };
        self.end.aim(d)
    }

    fn number(&self, i: u32) -> u32 {
        number(self.fan.cones.at(i), self.across, self.end)
    }

    fn point(&self, i: u32) -> Point2 {
        *self.cloud.at(self.number(i))
    }
}

/// The number of a cone's point at this end, for the direction itself or turned by a right angle.
fn number(cone: QuarterCone, across: bool, end: End) -> u32
    ensures { result ≡ quarter_end across end (quarter_cone_of cone) }
{
    if across {
        end.choose(cone.over, cone.under)
    } else {
        end.choose(cone.hi, cone.lo)
    }
}
