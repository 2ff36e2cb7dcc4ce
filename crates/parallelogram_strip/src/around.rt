//! The cones of a fan over half a turn, carried on around the other half.
ghost use Rattle.std.specs.Prelude.{◌≡◌, ◌+◌, ◌<◌, length, All};
ghost use Rattle.bounds_model.specs.Fans.{IsShort, half_directions};
ghost use Rattle.answers.specs.Answers.{vector_of, half_cone_of, half_fan_of};
ghost use Rattle.parallelogram_strip.specs.FullTurn.{other_side as other_side_of, cone_at as cone_of_number};

use answers::{Dir, HalfCone, HalfFan};

/// The cone on the other side: what was highest is lowest.
fn other_side(cone: HalfCone) -> HalfCone
    requires { IsShort (vector_of cone.dir) }
    ensures { half_cone_of result ≡ other_side_of (half_cone_of cone) }
{
    HalfCone {
        dir: Dir {
            x: -cone.dir.x,
            y: -cone.dir.y,
        },
        hi: cone.lo,
        lo: cone.hi,
    }
}

/// The cone of this number, counted on around the turn.
pub(crate) fn cone_at(fan: &HalfFan, i: u32) -> HalfCone
    requires listed { i < length fan.now.cones + length fan.now.cones }
    requires short { All IsShort (half_directions (half_fan_of fan.now)) }
    ensures { half_cone_of result ≡ cone_of_number (half_fan_of fan.now) i }
{
    let half = fan.cones.len();
    if i < half {
        return fan.cones.at(i);
    }
    other_side(fan.cones.at(i - half))
}
