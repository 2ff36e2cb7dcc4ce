//! The directions of fans, one by one.
ghost use Rattle.std.specs.Prelude.{◌≡◌, ◌≤◌, length};
ghost use Rattle.bounds_model.specs.Plane.{point_at};
ghost use Rattle.bounds_model.specs.Fans.{IsShort, half_directions, quarter_directions};
ghost use Rattle.fan_test.specs.Directions.{direction_of};
ghost use Rattle.answers.specs.Answers.{vector_of, half_fan_of, quarter_fan_of};

use crate::direction::Direction;
use answers::{Dir, HalfFan, QuarterFan};

/// The direction in 64 bits.
pub(crate) fn narrow(d: Dir) -> Direction
    requires { IsShort (vector_of d) }
    ensures { direction_of result ≡ vector_of d }
{
    Direction {
        x: d.x as i64,
        y: d.y as i64,
    }
}

/// The direction at which cone i of a fan over half a turn begins, or the last one.
pub fn half_direction(fan: &HalfFan, i: u32) -> Dir
    requires { i ≤ length fan.now.cones }
    ensures { vector_of result ≡ point_at (half_directions (half_fan_of fan.now)) i }
{
    if i == fan.cones.len() {
        return fan.last;
    }
    fan.cones.at(i).dir
}

/// The direction at which cone i of a fan over a quarter turn begins, or the last one.
pub fn quarter_direction(fan: &QuarterFan, i: u32) -> Dir
    requires { i ≤ length fan.now.cones }
    ensures { vector_of result ≡ point_at (quarter_directions (quarter_fan_of fan.now)) i }
{
    if i == fan.cones.len() {
        return fan.last;
    }
    fan.cones.at(i).dir
}
