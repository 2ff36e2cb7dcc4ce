//! What is to be known of a fan before it is tested: its numbers are those of points, and its directions are short.
ghost use Rattle.std.specs.Prelude.{◌≡◌, ◌↔◌, ◌<◌, IsTrue, All, length};
ghost use Rattle.bounds_model.specs.Fans.{IsShort, half_directions, quarter_directions, NamesPoints, NamesAllPoints};
ghost use Rattle.bounded_coords.specs.Clouds.{points_of};
ghost use Rattle.answers.specs.Answers.{vector_of, half_cone_of, half_fan_of, quarter_cone_of, quarter_fan_of};

use crate::fans::{half_direction, quarter_direction};
use answers::{Dir, HalfCone, HalfFan, QuarterCone, QuarterFan};
use bounded_coords::Cloud2;

/// The greatest magnitude of a direction's coordinate.
const LIMIT: u128 = 400_000;

/// Whether the direction's coordinates are within the limit.
pub fn is_short(d: Dir) -> bool
    ensures { IsTrue result ↔ IsShort (vector_of d) }
{
    d.x.unsigned_abs() <= LIMIT && d.y.unsigned_abs() <= LIMIT
}

/// Whether all directions of a fan over half a turn are within the limit.
pub fn is_short_half(fan: &HalfFan) -> bool
    ensures { IsTrue result ↔ All IsShort (half_directions (half_fan_of fan.now)) }
{
    for i in 0..fan.cones.len() + 1 {
        if !is_short(half_direction(fan, i)) {
            return false;
        }
    }
    true
}

/// Whether all directions of a fan over a quarter turn are within the limit.
pub fn is_short_quarter(fan: &QuarterFan) -> bool
    ensures { IsTrue result ↔ All IsShort (quarter_directions (quarter_fan_of fan.now)) }
{
    for i in 0..fan.cones.len() + 1 {
        if !is_short(quarter_direction(fan, i)) {
            return false;
        }
    }
    true
}

/// Whether the cone names two of so many points.
fn names_two(cone: HalfCone, count: u32) -> bool
    ensures { let m = half_cone_of cone in IsTrue result ↔ ((m.high < count) × (m.low < count)) }
{
    cone.hi < count && cone.lo < count
}

/// Whether the numbers of a fan over half a turn are numbers of points.
pub fn names_points(cloud: Cloud2<'_>, fan: &HalfFan) -> bool
    ensures { IsTrue result ↔ NamesPoints (points_of cloud.entry) (half_fan_of fan.now) }
{
    let count = cloud.len();
    for i in 0..fan.cones.len() {
        if !names_two(fan.cones.at(i), count) {
            return false;
        }
    }
    true
}

/// Whether the cone names four of so many points.
fn names_four(cone: QuarterCone, count: u32) -> bool
    ensures { let m = quarter_cone_of cone in IsTrue result ↔ ((m.high < count) × (m.low < count) × (m.over < count) × (m.under < count)) }
{
    cone.hi < count && cone.lo < count && cone.over < count && cone.under < count
}

/// Whether the numbers of a fan over a quarter turn are numbers of points.
pub fn names_all_points(cloud: Cloud2<'_>, fan: &QuarterFan) -> bool
    ensures { IsTrue result ↔ NamesAllPoints (points_of cloud.entry) (quarter_fan_of fan.now) }
{
    let count = cloud.len();
    for i in 0..fan.cones.len() {
        if !names_four(fan.cones.at(i), count) {
            return false;
        }
    }
    true
}
