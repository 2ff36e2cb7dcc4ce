//! The rectangle of least area in a direction of a fan.
ghost use Rattle.std.specs.Prelude.{◌≡◌, ◌⊎◌, ◌<◌, ◌≤◌, ◌^◌, length};
ghost use Rattle.bounds_model.specs.RectangleAnswer.{PassesRectangle};
ghost use Rattle.bounded_coords.specs.Clouds.{points_of};
ghost use Rattle.answers.specs.Answers.{quarter_fan_of, rectangle_of};
ghost use Rattle.min_rectangle.specs.PlainFan.{IsPlainFan};
ghost use Rattle.min_rectangle.specs.Areas.{IsArea, IsSmaller, IsNotLarger};

use answers::{QuarterFan, RectAnswer};
use bounded_coords::Cloud2;
use directions::{beyond, quarter_turn, span, squared_length};
use exact_fractions::Frac;

/// A direction of the fan, and the area of the rectangle around the points in it: how far they reach along the direction times how far
/// they reach across it, over the direction's squared length.
#[derive(Clone, Copy)]
pub(crate) struct Area {
    pub(crate) direction: u32,
    pub(crate) product: u128,
    pub(crate) length: u128,
}

/// The area in the direction of number j.
fn area_at(cloud: Cloud2<'_>, fan: &QuarterFan, j: u32) -> Area
    requires fan { IsPlainFan (points_of cloud) (quarter_fan_of fan.now) }
    requires listed { j < length fan.now.cones }
    ensures direction { result.direction ≡ j }
    ensures area { IsArea (points_of cloud.entry) (quarter_fan_of fan.now) result }
{
    let cone = fan.cones.at(j);
    let along = beyond(cone.dir, cloud.at(cone.lo), cloud.at(cone.hi));
    let across = beyond(
        quarter_turn(cone.dir),
        cloud.at(cone.under),
        cloud.at(cone.over),
    );
    Area {
        direction: j,
        product: along * across,
        length: squared_length(cone.dir),
    }
}

/// The smaller one, the first of two that are equal.
fn smaller(a: Area, b: Area) -> Area
    requires a_product { a.product ≤ 2 ^ 77 }
    requires a_length { a.length ≤ 320000000000 }
    requires b_product { b.product ≤ 2 ^ 77 }
    requires b_length { b.length ≤ 320000000000 }
    ensures one { (result ≡ a) ⊎ ((result ≡ b) × IsSmaller b a) }
    ensures not_larger_a { IsNotLarger result a }
    ensures not_larger_b { IsNotLarger result b }
{
    let p = a.product * b.length;
    let q = b.product * a.length;
    if q < p { b } else { a }
}

/// The rectangle of least area in a direction of the fan, the first of them where several are least: no rectangle around the points is
/// below it, and none as small comes before it. The last direction, up, has the rectangle of the first, to the right.
pub(crate) fn rectangle_of_fan(cloud: Cloud2<'_>, fan: QuarterFan) -> RectAnswer
    requires { IsPlainFan (points_of cloud) (quarter_fan_of fan) }
    ensures { PassesRectangle (points_of cloud.entry) (rectangle_of result) }
{
    let mut best = area_at(cloud, &fan, 0);
    for j in 1..fan.cones.len() {
        best = smaller(best, area_at(cloud, &fan, j));
    }
    let cone = fan.cones.at(best.direction);
    RectAnswer {
        size: Frac::new(best.product, best.length),
        direction: cone.dir,
        along: span(cloud, cone.dir, cone.hi, cone.lo),
        across: span(cloud, quarter_turn(cone.dir), cone.over, cone.under),
        fan,
    }
}
