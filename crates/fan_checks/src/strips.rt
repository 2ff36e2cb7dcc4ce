//! Strips, and fans which show that none is narrower.
ghost use Rattle.std.specs.Prelude.{◌↔◌, ◌^◌, ◌<◌, ◌≤ℤ◌, pos, length, IsTrue};
ghost use Rattle.bounds_model.specs.Fractions.{SameValue};
ghost use Rattle.bounds_model.specs.Ranges.{IsFraction};
ghost use Rattle.bounds_model.specs.Strip.{strip_size};
ghost use Rattle.bounds_model.specs.StripAnswer as model;
ghost use Rattle.bounds_model.specs.StripAnswer.{IsNotThinner, IsThicker};
ghost use Rattle.bounds_model.specs.Fans.{IsShort, half_directions, HoldsHalf, AtBothEnds, IsFirst};
ghost use Rattle.bounds_model.specs.Firsts.{IsFirstStrip};
ghost use Rattle.bounds_model.specs.Asks.{ask_strip, plane};
ghost use Rattle.bounds_model.specs.Answers.{Passes, IsBest, strip};
ghost use Rattle.bounded_coords.specs.Clouds.{points_of};
ghost use Rattle.answers.specs.Answers.{strip_of, vector_of, span_of, half_cone_of, half_fan_of};
ghost use Rattle.fan_checks.specs.Limits.{HasHalfLimits, HasNormalLimits};

use crate::fans::is_half_within_limits;
use crate::spans::{extent, is_along, is_lowest, is_normal_within_limits, is_tight};
use answers::{Dir, HalfCone, HalfFan, StripAnswer};
use bounded_coords::Cloud2;
use directions::{reach, squared_length};
use exact_fractions::Frac;
use fan_test::{half_direction, holds_half};
use optimality::answer::passing_answers_are_best;
use optimality::strip::passing_strips_are_first;

/// Whether the strip holds all points, the size is its squared width, and no strip is narrower, as the fan shows: its points are
/// extreme in all directions of their cones, and in no direction of the fan is the strip around the points narrower (CGAL manual,
/// Bounding Volumes, `min_strip_2`). Limits are judged first, then the size, then the rest.
pub fn check_strip(cloud: Cloud2<'_>, a: &StripAnswer) -> bool
    ensures passes { IsTrue result ↔ Passes ask_strip (plane (points_of cloud.entry)) (strip (strip_of a.now)) }
    ensures best { IsTrue result → IsBest ask_strip (plane (points_of cloud.entry)) (strip (strip_of a.now)) }
    ensures first { IsTrue result → IsFirstStrip (points_of cloud.entry) (model.strip_of (strip_of a.now)) }
{
    passing_answers_are_best();
    passing_strips_are_first();
    if !is_half_within_limits(cloud, &a.fan) {
        return false;
    }
    if !is_normal_within_limits(a.direction, a.bounds) {
        return false;
    }
    // Behind this the size is that of the object, so that the products of each direction fit 128 bits.
    if !has_size(a) {
        return false;
    }
    if !holds_half(cloud, &a.fan) {
        return false;
    }
    if !is_none_narrower(cloud, &a.fan, &a.size) {
        return false;
    }
    if !is_first(cloud, &a.fan, &a.size, a.direction) {
        return false;
    }
    is_tight(cloud, a.direction, a.bounds)
}

/// Whether the size is the squared width of the strip.
fn has_size(a: &StripAnswer) -> bool
    requires { HasNormalLimits (vector_of a.now.direction) (span_of a.now.bounds) }
    ensures value { IsTrue result ↔ SameValue a.now.size (strip_size (model.strip_of (strip_of a.now))) }
    ensures lowest { IsFraction a.now.size }
    ensures numerator { IsTrue result → a.now.size.n ≤ℤ pos (2 ^ 82) }
    ensures denominator { IsTrue result → a.now.size.d ≤ℤ pos (2 ^ 39) }
{
    let width = extent(a.bounds).unsigned_abs();
    a.size.is_ratio(width * width, squared_length(a.direction))
}

/// Whether in no direction of the fan the strip around the points is narrower.
///
/// Where a cone ends and the next one begins, the points of both are extreme, so that the width is the same by either, and each
/// direction is looked at once.
fn is_none_narrower(cloud: Cloud2<'_>, fan: &HalfFan, size: &Frac) -> bool
    requires limits { HasHalfLimits (points_of cloud) (half_fan_of fan.now) }
    requires holds { HoldsHalf (points_of cloud) (half_fan_of fan.now) }
    requires numerator { size.now.n ≤ℤ pos (2 ^ 82) }
    requires denominator { size.now.d ≤ℤ pos (2 ^ 39) }
    ensures { IsTrue result ↔ AtBothEnds (half_directions (half_fan_of fan.now)) (IsNotThinner (points_of cloud.entry) size.now)
        (half_fan_of fan.now).cones }
{
    for i in 0..fan.cones.len() {
        let cone = fan.cones.at(i);
        if !is_not_narrower(cloud, cone, cone.dir, size) {
            return false;
        }
    }
    let last = fan.cones.len() - 1;
    let end = half_direction(fan, last + 1);
    is_not_narrower(cloud, fan.cones.at(last), end, size)
}

/// Whether the strip's normal is in lowest terms the direction of a cone, and in each direction before it the strip around the points is
/// wider than the size asks.
fn is_first(cloud: Cloud2<'_>, fan: &HalfFan, size: &Frac, normal: Dir) -> bool
    requires limits { HasHalfLimits (points_of cloud) (half_fan_of fan.now) }
    requires numerator { size.now.n ≤ℤ pos (2 ^ 82) }
    requires denominator { size.now.d ≤ℤ pos (2 ^ 39) }
    requires normal { IsShort (vector_of normal) }
    ensures { IsTrue result ↔ IsFirst (half_directions (half_fan_of fan.now)) (IsThicker (points_of cloud.entry) size.now)
        (half_fan_of fan.now).cones (vector_of normal) }
{
    if !is_lowest(normal) {
        return false;
    }
    'cones: for i in 0..fan.cones.len() {
        let cone = fan.cones.at(i);
        if is_along(cone.dir, normal) {
            return true;
        }
        if !is_wider(cloud, cone, size) {
            return false;
        }
    }
    false
}

/// Whether the strip around the points in a cone's direction is wider than the size asks.
fn is_wider(cloud: Cloud2<'_>, cone: HalfCone, size: &Frac) -> bool
    requires direction { IsShort (vector_of cone.dir) }
    requires hi { cone.hi < length (points_of cloud) }
    requires lo { cone.lo < length (points_of cloud) }
    requires numerator { size.now.n ≤ℤ pos (2 ^ 82) }
    requires denominator { size.now.d ≤ℤ pos (2 ^ 39) }
    ensures { IsTrue result ↔ IsThicker (points_of cloud.entry) size.now (vector_of cone.dir) (half_cone_of cone) }
{
    let width = u128::from(reach(cloud, cone.dir, cone.hi, cone.lo).unsigned_abs());
    size.num() * squared_length(cone.dir) < width * width * size.den()
}

/// Whether the strip around the points in a direction is not narrower, by a cone's points, which are extreme there.
fn is_not_narrower(cloud: Cloud2<'_>, cone: HalfCone, d: Dir, size: &Frac) -> bool
    requires direction { IsShort (vector_of d) }
    requires hi { cone.hi < length (points_of cloud) }
    requires lo { cone.lo < length (points_of cloud) }
    requires numerator { size.now.n ≤ℤ pos (2 ^ 82) }
    requires denominator { size.now.d ≤ℤ pos (2 ^ 39) }
    ensures { IsTrue result ↔ IsNotThinner (points_of cloud.entry) size.now (vector_of d) (half_cone_of cone) }
{
    let width = u128::from(reach(cloud, d, cone.hi, cone.lo).unsigned_abs());
    size.num() * squared_length(d) <= width * width * size.den()
}
