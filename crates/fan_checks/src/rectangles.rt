//! Rectangles, and fans which show that none is smaller.
ghost use Rattle.std.specs.Prelude.{◌↔◌, ◌^◌, ◌<◌, ◌≤ℤ◌, pos, length, IsTrue};
ghost use Rattle.bounds_model.specs.Fractions.{SameValue};
ghost use Rattle.bounds_model.specs.Ranges.{IsFraction};
ghost use Rattle.bounds_model.specs.Rectangle.{rectangle_size};
ghost use Rattle.bounds_model.specs.StripAnswer.{IsShortSpan};
ghost use Rattle.bounds_model.specs.RectangleAnswer as model;
ghost use Rattle.bounds_model.specs.RectangleAnswer.{IsNotSmaller, IsLarger};
ghost use Rattle.bounds_model.specs.Fans.{IsShort, HoldsQuarter, IsQuarterExtreme};
ghost use Rattle.bounds_model.specs.Fans.{quarter_directions, AtBothEnds, IsFirst};
ghost use Rattle.bounds_model.specs.Firsts.{IsFirstRectangle};
ghost use Rattle.bounds_model.specs.Asks.{ask_rectangle, plane};
ghost use Rattle.bounds_model.specs.Answers.{Passes, IsBest, rectangle};
ghost use Rattle.bounded_coords.specs.Clouds.{points_of};
ghost use Rattle.answers.specs.Answers.{rectangle_of, vector_of, span_of, quarter_cone_of};
ghost use Rattle.answers.specs.Answers.{quarter_fan_of};
ghost use Rattle.fan_checks.specs.Limits.{HasQuarterLimits, HasNormalLimits, NamesFour};

use crate::fans::is_quarter_within_limits;
use crate::spans::{
    is_along, is_lowest, is_normal_within_limits, is_product, is_short_span, is_tight,
};
use answers::{Dir, QuarterCone, QuarterFan, RectAnswer};
use bounded_coords::Cloud2;
use directions::{beyond, quarter_turn, squared_length};
use exact_fractions::Frac;
use fan_test::{holds_quarter, quarter_direction};
use optimality::answer::passing_answers_are_best;
use optimality::rectangle::passing_rectangles_are_first;

/// Whether the rectangle holds all points, the size is its area, and no rectangle is smaller, as the fan shows: its points are extreme in
/// all directions of their cones and in these turned by a right angle, and in no direction of the fan is the rectangle around the points
/// smaller (CGAL manual, Bounding Volumes, `min_rectangle_2`). Limits are judged first, then the size, then the rest.
pub fn check_rectangle(cloud: Cloud2<'_>, a: &RectAnswer) -> bool
    ensures passes { IsTrue result ↔ Passes ask_rectangle (plane (points_of cloud.entry)) (rectangle (rectangle_of a.now)) }
    ensures best { IsTrue result → IsBest ask_rectangle (plane (points_of cloud.entry)) (rectangle (rectangle_of a.now)) }
    ensures first { IsTrue result → IsFirstRectangle (points_of cloud.entry) (model.rectangle_of (rectangle_of a.now)) }
{
    passing_answers_are_best();
    passing_rectangles_are_first();
    if !is_quarter_within_limits(cloud, &a.fan) {
        return false;
    }
    if !is_normal_within_limits(a.direction, a.along) {
        return false;
    }
    if !is_short_span(a.across) {
        return false;
    }
    // Behind this the size is that of the object, so that the products of each direction fit 128 bits.
    if !has_size(a) {
        return false;
    }
    if !holds_quarter(cloud, &a.fan) {
        return false;
    }
    if !is_none_smaller(cloud, &a.fan, &a.size) {
        return false;
    }
    if !is_first(cloud, &a.fan, &a.size, a.direction) {
        return false;
    }
    if !is_tight(cloud, a.direction, a.along) {
        return false;
    }
    is_tight(cloud, quarter_turn(a.direction), a.across)
}

/// Whether the size is the area of the rectangle.
fn has_size(a: &RectAnswer) -> bool
    requires along { HasNormalLimits (vector_of a.now.direction) (span_of a.now.along) }
    requires across { IsShortSpan (span_of a.now.across) }
    ensures value { IsTrue result ↔ SameValue a.now.size (rectangle_size (model.rectangle_of (rectangle_of a.now))) }
    ensures lowest { IsFraction a.now.size }
    ensures numerator { IsTrue result → a.now.size.n ≤ℤ pos (2 ^ 82) }
    ensures denominator { IsTrue result → a.now.size.d ≤ℤ pos (2 ^ 39) }
{
    is_product(&a.size, a.along, a.across, squared_length(a.direction))
}

/// Whether in no direction of the fan the rectangle around the points is smaller.
///
/// Where a cone ends and the next one begins, the points of both are extreme, so that the area is the same by either, and each
/// direction is looked at once.
fn is_none_smaller(cloud: Cloud2<'_>, fan: &QuarterFan, size: &Frac) -> bool
    requires limits { HasQuarterLimits (points_of cloud) (quarter_fan_of fan.now) }
    requires holds { HoldsQuarter (points_of cloud) (quarter_fan_of fan.now) }
    requires numerator { size.now.n ≤ℤ pos (2 ^ 82) }
    requires denominator { size.now.d ≤ℤ pos (2 ^ 39) }
    ensures { IsTrue result ↔ AtBothEnds (quarter_directions (quarter_fan_of fan.now)) (IsNotSmaller (points_of cloud.entry) size.now)
        (quarter_fan_of fan.now).cones }
{
    for i in 0..fan.cones.len() {
        let cone = fan.cones.at(i);
        if !is_not_smaller(cloud, cone, cone.dir, size) {
            return false;
        }
    }
    let last = fan.cones.len() - 1;
    let end = quarter_direction(fan, last + 1);
    is_not_smaller(cloud, fan.cones.at(last), end, size)
}

/// Whether the rectangle's direction is in lowest terms the direction of a cone, and in each direction before it the rectangle around the
/// points is larger than the size.
fn is_first(cloud: Cloud2<'_>, fan: &QuarterFan, size: &Frac, direction: Dir) -> bool
    requires limits { HasQuarterLimits (points_of cloud) (quarter_fan_of fan.now) }
    requires holds { HoldsQuarter (points_of cloud) (quarter_fan_of fan.now) }
    requires numerator { size.now.n ≤ℤ pos (2 ^ 82) }
    requires denominator { size.now.d ≤ℤ pos (2 ^ 39) }
    requires direction { IsShort (vector_of direction) }
    ensures { IsTrue result ↔ IsFirst (quarter_directions (quarter_fan_of fan.now)) (IsLarger (points_of cloud.entry) size.now)
        (quarter_fan_of fan.now).cones (vector_of direction) }
{
    if !is_lowest(direction) {
        return false;
    }
    'cones: for i in 0..fan.cones.len() {
        let cone = fan.cones.at(i);
        if is_along(cone.dir, direction) {
            return true;
        }
        if !is_larger(cloud, cone, size) {
            return false;
        }
    }
    false
}

/// Whether the rectangle around the points in a cone's direction is larger than the size.
fn is_larger(cloud: Cloud2<'_>, cone: QuarterCone, size: &Frac) -> bool
    requires direction { IsShort (vector_of cone.dir) }
    requires named { NamesFour (length (points_of cloud)) (quarter_cone_of cone) }
    requires extreme { IsQuarterExtreme (points_of cloud) (vector_of cone.dir) (quarter_cone_of cone) }
    requires numerator { size.now.n ≤ℤ pos (2 ^ 82) }
    requires denominator { size.now.d ≤ℤ pos (2 ^ 39) }
    ensures { IsTrue result ↔ IsLarger (points_of cloud.entry) size.now (vector_of cone.dir) (quarter_cone_of cone) }
{
    let along = beyond(cone.dir, cloud.at(cone.lo), cloud.at(cone.hi));
    let across = beyond(
        quarter_turn(cone.dir),
        cloud.at(cone.under),
        cloud.at(cone.over),
    );
    size.num() * squared_length(cone.dir) < along * across * size.den()
}

/// Whether the rectangle around the points in a direction is not smaller, by a cone's points, which are extreme there.
fn is_not_smaller(cloud: Cloud2<'_>, cone: QuarterCone, d: Dir, size: &Frac) -> bool
    requires direction { IsShort (vector_of d) }
    requires named { NamesFour (length (points_of cloud)) (quarter_cone_of cone) }
    requires extreme { IsQuarterExtreme (points_of cloud) (vector_of d) (quarter_cone_of cone) }
    requires numerator { size.now.n ≤ℤ pos (2 ^ 82) }
    requires denominator { size.now.d ≤ℤ pos (2 ^ 39) }
    ensures { IsTrue result ↔ IsNotSmaller (points_of cloud.entry) size.now (vector_of d) (quarter_cone_of cone) }
{
    let along = beyond(d, cloud.at(cone.lo), cloud.at(cone.hi));
    let across = beyond(quarter_turn(d), cloud.at(cone.under), cloud.at(cone.over));
    size.num() * squared_length(d) <= along * across * size.den()
}
