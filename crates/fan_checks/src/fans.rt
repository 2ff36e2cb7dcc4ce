//! The limits on fans.
ghost use Rattle.std.specs.Prelude.{◌↔◌, ◌≤◌, IsTrue};
ghost use Rattle.bounded_coords.specs.Clouds.{points_of};
ghost use Rattle.answers.specs.Answers.{half_fan_of, quarter_fan_of};
ghost use Rattle.fan_checks.specs.Limits.{HasHalfLimits, HasQuarterLimits};

use answers::{HalfFan, QuarterFan};
use bounded_coords::Cloud2;
use fan_test::{is_short_half, is_short_quarter, names_all_points, names_points};

/// The most cones of a fan.
const MOST_CONES: u32 = 10_002;

/// Whether a fan over half a turn is within the limits.
pub(crate) fn is_half_within_limits(cloud: Cloud2<'_>, fan: &HalfFan) -> bool
    ensures { IsTrue result ↔ HasHalfLimits (points_of cloud.entry) (half_fan_of fan.now) }
{
    if !is_cone_count(fan.cones.len()) {
        return false;
    }
    if !names_points(cloud, fan) {
        return false;
    }
    is_short_half(fan)
}

/// Whether a fan over a quarter turn is within the limits.
pub(crate) fn is_quarter_within_limits(cloud: Cloud2<'_>, fan: &QuarterFan) -> bool
    ensures { IsTrue result ↔ HasQuarterLimits (points_of cloud.entry) (quarter_fan_of fan.now) }
{
    if !is_cone_count(fan.cones.len()) {
        return false;
    }
    if !names_all_points(cloud, fan) {
        return false;
    }
    is_short_quarter(fan)
}

/// Whether a fan may have so many cones.
fn is_cone_count(count: u32) -> bool
    ensures { IsTrue result ↔ ((1 ≤ count) × (count ≤ 10002)) }
{
    1 <= count && count <= MOST_CONES
}
