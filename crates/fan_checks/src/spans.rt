//! Normals, their bounds, and points inside them.
ghost use Rattle.std.specs.Prelude.{◌≡◌, ◌↔◌, ◌≢◌, ◌^◌, ◌≤◌, ◌*ℤ◌, ◌≤ℤ◌, ◌<ℤ◌, ◌∷◌};
ghost use Rattle.std.specs.Prelude.{pos, [], IsTrue, All, Any};
ghost use Rattle.bounds_model.specs.Fractions.{SameValue, HaveNoCommonFactor};
ghost use Rattle.bounds_model.specs.Ranges.{IsFraction};
ghost use Rattle.bounds_model.specs.Plane.{origin, dot, cross};
ghost use Rattle.integers.specs.Size.{Size};
ghost use Rattle.bounds_model.specs.Strip.{IsInSpan, AreTight, extent as extent_of};
ghost use Rattle.bounds_model.specs.Fans.{IsShort};
ghost use Rattle.bounds_model.specs.StripAnswer.{IsShortSpan};
ghost use Rattle.bounded_coords.specs.Clouds.{points_of};
ghost use Rattle.answers.specs.Answers.{vector_of, span_of};
ghost use Rattle.fan_checks.specs.Limits.{HasNormalLimits};

use answers::{Dir, Span};
use bounded_coords::Cloud2;
use directions::{along, cross_directions, quarter_turn};
use exact_fractions::{Frac, gcd};
use fan_test::is_short;

/// The greatest magnitude of a bound.
const SPAN_LIMIT: u128 = 1 << 40;

/// Whether a normal and its bounds are within their limits.
pub(crate) fn is_normal_within_limits(normal: Dir, span: Span) -> bool
    ensures { IsTrue result ↔ HasNormalLimits (vector_of normal) (span_of span) }
{
    if !is_short(normal) {
        return false;
    }
    if !is_short_span(span) {
        return false;
    }
    is_some(normal)
}

/// Whether the bounds are within the limit.
pub(crate) fn is_short_span(span: Span) -> bool
    ensures { IsTrue result ↔ IsShortSpan (span_of span) }
{
    span.lo.unsigned_abs() <= SPAN_LIMIT && span.hi.unsigned_abs() <= SPAN_LIMIT
}

/// Whether the direction is not 0.
fn is_some(d: Dir) -> bool
    ensures { IsTrue result ↔ (vector_of d ≢ origin) }
{
    d.x != 0 || d.y != 0
}

/// Whether a direction's entries have no common factor.
pub(crate) fn is_lowest(d: Dir) -> bool
    ensures { IsTrue result ↔ HaveNoCommonFactor ((vector_of d).x ∷ (vector_of d).y ∷ []) }
{
    gcd(d.x.unsigned_abs(), d.y.unsigned_abs()) == 1
}

/// Whether two directions point the same way.
pub(crate) fn is_along(d: Dir, u: Dir) -> bool
    requires d { IsShort (vector_of d) }
    requires u { IsShort (vector_of u) }
    ensures { IsTrue result ↔ (cross (vector_of d) (vector_of u) ≡ pos 0) × (pos 0 <ℤ dot (vector_of d) (vector_of u)) }
{
    cross_directions(d, u) == 0 && cross_directions(d, quarter_turn(u)) > 0
}

/// Whether the bounds are the least and the greatest product of the normal with a point.
pub(crate) fn is_tight(cloud: Cloud2<'_>, normal: Dir, span: Span) -> bool
    requires { IsShort (vector_of normal) }
    ensures { IsTrue result ↔ AreTight (points_of cloud.entry) (vector_of normal) (span_of span) }
{
    if !are_in_span(cloud, normal, span) {
        return false;
    }
    if !is_reached(cloud, normal, span.lo) {
        return false;
    }
    is_reached(cloud, normal, span.hi)
}

/// Whether some point has this product with the normal.
fn is_reached(cloud: Cloud2<'_>, normal: Dir, bound: i128) -> bool
    requires { IsShort (vector_of normal) }
    ensures { IsTrue result ↔ Any (λ p. dot (vector_of normal) p ≡ bound) (points_of cloud.entry) }
{
    'points: for i in 0..cloud.len() {
        if i128::from(along(normal, cloud.at(i))) == bound {
            return true;
        }
    }
    false
}

/// Whether all points are between the bounds along the normal.
pub(crate) fn are_in_span(cloud: Cloud2<'_>, normal: Dir, span: Span) -> bool
    requires { IsShort (vector_of normal) }
    ensures { IsTrue result ↔ All (λ p. IsInSpan (span_of span) (dot (vector_of normal) p)) (points_of cloud.entry) }
{
    for i in 0..cloud.len() {
        if !is_in_span(span, along(normal, cloud.at(i))) {
            return false;
        }
    }
    true
}

/// Whether the number is between the bounds.
fn is_in_span(span: Span, z: i64) -> bool
    ensures { IsTrue result ↔ IsInSpan (span_of span) z }
{
    let z = i128::from(z);
    span.lo <= z && z <= span.hi
}

/// How far the bounds are apart, below 0 where they are exchanged.
pub(crate) fn extent(span: Span) -> i128
    requires { IsShortSpan (span_of span) }
    ensures value { result ≡ extent_of (span_of span) }
    ensures size { Size (2 ^ 41) result }
{
    span.hi - span.lo
}

/// The product of two extents.
fn area(first: Span, second: Span) -> i128
    requires first { IsShortSpan (span_of first) }
    requires second { IsShortSpan (span_of second) }
    ensures value { result ≡ extent_of (span_of first) *ℤ extent_of (span_of second) }
    ensures size { Size (2 ^ 82) result }
{
    extent(first) * extent(second)
}

/// Whether the size is the product of two extents, over a denominator.
pub(crate) fn is_product(size: &Frac, first: Span, second: Span, denominator: u128) -> bool
    requires first { IsShortSpan (span_of first) }
    requires second { IsShortSpan (span_of second) }
    requires some { 1 ≤ denominator }
    requires limit { denominator ≤ 2 ^ 40 }
    ensures value { IsTrue result ↔ SameValue size.now (record { n = extent_of (span_of first) *ℤ extent_of (span_of second); d = pos denominator }) }
    ensures lowest { IsFraction size.now }
    ensures numerator { IsTrue result → size.now.n ≤ℤ pos (2 ^ 82) }
    ensures denominator { IsTrue result → size.now.d ≤ℤ pos denominator }
{
    let area = area(first, second);
    let ratio = size.is_ratio(area.unsigned_abs(), denominator);
    if area < 0 {
        return false;
    }
    ratio
}
