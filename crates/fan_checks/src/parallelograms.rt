//! Parallelograms, and fans with chords which show that none is smaller.
ghost use Rattle.std.specs.Prelude.{◌≡◌, ◌≢◌, ◌↔◌, ◌+◌, ◌^◌, ◌<◌, ◌≤ℤ◌, pos, length, map, IsTrue};
ghost use Rattle.bounds_model.specs.Numbers.{AllNumbered};
ghost use Rattle.bounds_model.specs.Plane.{cross};
ghost use Rattle.bounds_model.specs.Fractions.{SameValue};
ghost use Rattle.bounds_model.specs.Ranges.{IsFraction};
ghost use Rattle.bounds_model.specs.Parallelogram.{parallelogram_size};
ghost use Rattle.bounds_model.specs.Fans.{IsShort, HoldsHalf, IsHalfExtreme};
ghost use Rattle.bounds_model.specs.StripAnswer.{IsShortSpan};
ghost use Rattle.bounds_model.specs.ParallelogramAnswer as model;
ghost use Rattle.bounds_model.specs.ParallelogramAnswer.{IsShortChord, IsNotSmaller, IsNotSmallerAt};
ghost use Rattle.bounds_model.specs.Asks.{ask_parallelogram, plane};
ghost use Rattle.bounds_model.specs.Answers.{Passes, IsBest, parallelogram};
ghost use Rattle.bounded_coords.specs.Clouds.{points_of};
ghost use Rattle.answers.specs.Answers.{parallelogram_of, vector_of, span_of, half_cone_of, half_fan_of, chord_of};
ghost use Rattle.fan_checks.specs.Limits.{HasHalfLimits, HasChordLimits};

use crate::chords::{are_across, are_within_limits};
use crate::fans::is_half_within_limits;
use crate::spans::{are_in_span, is_product, is_short_span};
use answers::{Chord, Dir, HalfCone, ParaAnswer};
use bounded_coords::Cloud2;
use directions::{beyond, cross_directions};
use exact_fractions::Frac;
use fan_test::{half_direction, holds_half, is_short};
use optimality::answer::passing_answers_are_best;

/// Whether the parallelogram holds all points, the size is its area, and no parallelogram is smaller, as the fan shows with its chords:
/// its points are extreme in all directions of their cones, and for no direction is the width of the points there times the length of
/// the chord across it smaller (CGAL manual, Bounding Volumes, `min_parallelogram_2`). Limits are judged first, then the size, then the
/// rest.
pub fn check_parallelogram(cloud: Cloud2<'_>, a: &ParaAnswer) -> bool
    ensures passes { IsTrue result ↔ Passes ask_parallelogram (plane (points_of cloud.entry)) (parallelogram (parallelogram_of a.now)) }
    ensures best { IsTrue result → IsBest ask_parallelogram (plane (points_of cloud.entry)) (parallelogram (parallelogram_of a.now)) }
{
    passing_answers_are_best();
    if !is_half_within_limits(cloud, &a.fan) {
        return false;
    }
    if !is_short(a.first) {
        return false;
    }
    if !is_short(a.second) {
        return false;
    }
    if !is_short_span(a.first_span) {
        return false;
    }
    if !is_short_span(a.second_span) {
        return false;
    }
    if !are_within_limits(cloud, &a.chords, a.fan.cones.len() + 1) {
        return false;
    }
    // Behind this the size is that of the object, so that the products of each direction fit 128 bits.
    if !has_size(a) {
        return false;
    }
    if !holds_half(cloud, &a.fan) {
        return false;
    }
    if !are_across(cloud, &a.fan, &a.chords) {
        return false;
    }
    if !is_none_smaller(cloud, a) {
        return false;
    }
    if !are_in_span(cloud, a.first, a.first_span) {
        return false;
    }
    are_in_span(cloud, a.second, a.second_span)
}

/// Whether the normals are not along each other, and the size is the area of the parallelogram.
fn has_size(a: &ParaAnswer) -> bool
    requires first { IsShort (vector_of a.now.first) }
    requires second { IsShort (vector_of a.now.second) }
    requires first_span { IsShortSpan (span_of a.now.first_span) }
    requires second_span { IsShortSpan (span_of a.now.second_span) }
    ensures value { IsTrue result ↔ ((cross (vector_of a.now.first) (vector_of a.now.second) ≢ pos 0)
        × SameValue a.now.size (parallelogram_size (model.parallelogram_of (parallelogram_of a.now)))) }
    ensures lowest { IsTrue result → IsFraction a.now.size }
    ensures numerator { IsTrue result → a.now.size.n ≤ℤ pos (2 ^ 82) }
    ensures denominator { IsTrue result → a.now.size.d ≤ℤ pos (2 ^ 39) }
{
    let cross = cross_directions(a.first, a.second);
    if cross == 0 {
        return false;
    }
    is_product(
        &a.size,
        a.first_span,
        a.second_span,
        u128::from(cross.unsigned_abs()),
    )
}

/// Whether for no direction of the fan the width of the points, times the length of the chord across it, is smaller.
///
/// Where a cone ends and the next one begins, the points of both are extreme, so that the width is the same by either, and each
/// direction is looked at once.
fn is_none_smaller(cloud: Cloud2<'_>, a: &ParaAnswer) -> bool
    requires limits { HasHalfLimits (points_of cloud) (half_fan_of a.now.fan) }
    requires chords { HasChordLimits (points_of cloud) (length a.now.fan.cones + 1) (map chord_of a.now.chords) }
    requires holds { HoldsHalf (points_of cloud) (half_fan_of a.now.fan) }
    requires numerator { a.now.size.n ≤ℤ pos (2 ^ 82) }
    requires denominator { a.now.size.d ≤ℤ pos (2 ^ 39) }
    ensures { let p = parallelogram_of a.now in IsTrue result ↔ AllNumbered
        (λ i cone. IsNotSmallerAt (points_of cloud.entry) p i cone × IsNotSmallerAt (points_of cloud.entry) p (i + 1) cone) p.fan.cones }
{
    for i in 0..a.fan.cones.len() {
        let cone = a.fan.cones.at(i);
        if !is_not_smaller(cloud, cone, cone.dir, a.chords.at(i), &a.size) {
            return false;
        }
    }
    let last = a.fan.cones.len() - 1;
    let end = half_direction(&a.fan, last + 1);
    is_not_smaller(
        cloud,
        a.fan.cones.at(last),
        end,
        a.chords.at(last + 1),
        &a.size,
    )
}

/// Whether the width of the points in a direction, by a cone's points, which are extreme there, times the length of the chord across it
/// is not smaller.
fn is_not_smaller(cloud: Cloud2<'_>, cone: HalfCone, d: Dir, chord: Chord, size: &Frac) -> bool
    requires direction { IsShort (vector_of d) }
    requires hi { cone.hi < length (points_of cloud) }
    requires lo { cone.lo < length (points_of cloud) }
    requires extreme { IsHalfExtreme (points_of cloud) (vector_of d) (half_cone_of cone) }
    requires chord { IsShortChord (chord_of chord) }
    requires numerator { size.now.n ≤ℤ pos (2 ^ 82) }
    requires denominator { size.now.d ≤ℤ pos (2 ^ 39) }
    ensures { IsTrue result ↔ IsNotSmaller (points_of cloud.entry) size.now (vector_of d) (half_cone_of cone) (chord_of chord) }
{
    let width = beyond(d, cloud.at(cone.lo), cloud.at(cone.hi));
    size.num() * (chord.beta + chord.gamma) <= width * chord.k.unsigned_abs() * size.den()
}
