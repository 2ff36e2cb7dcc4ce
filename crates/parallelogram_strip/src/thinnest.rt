//! The strip of least width.
ghost use Rattle.std.specs.Prelude.{◌≡◌, ◌⊎◌, ◌<◌, ◌≤◌, ◌^◌, length};
ghost use Rattle.bounds_model.specs.StripAnswer.{PassesStrip};
ghost use Rattle.bounded_coords.specs.Clouds.{points_of};
ghost use Rattle.answers.specs.Answers.{half_fan_of, strip_of};
ghost use Rattle.parallelogram_strip.specs.PlainFan.{IsPlainFan};
ghost use Rattle.parallelogram_strip.specs.Widths.{IsWidth, IsThinner, IsNotWider};

use answers::{HalfFan, StripAnswer};
use bounded_coords::Cloud2;
use directions::{beyond, span, squared_length};
use exact_fractions::Frac;

/// A direction of the fan, how far the points reach along it, and its squared length.
#[derive(Clone, Copy)]
pub(crate) struct Width {
    pub(crate) direction: u32,
    pub(crate) reach: u128,
    pub(crate) length: u128,
}

/// The width along the direction of number j.
fn width_at(cloud: Cloud2<'_>, fan: &HalfFan, j: u32) -> Width
    requires fan { IsPlainFan (points_of cloud) (half_fan_of fan.now) }
    requires listed { j < length fan.now.cones }
    ensures direction { result.direction ≡ j }
    ensures width { IsWidth (points_of cloud.entry) (half_fan_of fan.now) result }
{
    let cone = fan.cones.at(j);
    Width {
        direction: j,
        reach: beyond(cone.dir, cloud.at(cone.lo), cloud.at(cone.hi)),
        length: squared_length(cone.dir),
    }
}

/// The one with the smaller width, the first of two that are equal.
fn thinner(a: Width, b: Width) -> Width
    requires a_reach { a.reach ≤ 320000000000 }
    requires a_length { a.length ≤ 320000000000 }
    requires b_reach { b.reach ≤ 320000000000 }
    requires b_length { b.length ≤ 320000000000 }
    ensures one { (result ≡ a) ⊎ ((result ≡ b) × IsThinner b a) }
    ensures not_wider_a { IsNotWider result a }
    ensures not_wider_b { IsNotWider result b }
{
    let p = a.reach * a.reach * b.length;
    let q = b.reach * b.reach * a.length;
    if q < p { b } else { a }
}

/// The strip of least width along a direction of the fan, the first of them where several are least: no strip around the points is
/// below it, and none as thin comes before it.
pub(crate) fn strip_of_fan(cloud: Cloud2<'_>, fan: HalfFan) -> StripAnswer
    requires { IsPlainFan (points_of cloud) (half_fan_of fan) }
    ensures { PassesStrip (points_of cloud.entry) (strip_of result) }
{
    let mut best = width_at(cloud, &fan, 0);
    for j in 1..fan.cones.len() {
        best = thinner(best, width_at(cloud, &fan, j));
    }
    let cone = fan.cones.at(best.direction);
    StripAnswer {
        size: Frac::new(best.reach * best.reach, best.length),
        direction: cone.dir,
        bounds: span(cloud, cone.dir, cone.hi, cone.lo),
        fan,
    }
}
