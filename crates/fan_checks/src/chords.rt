//! Chords across the directions of a fan.
ghost use Rattle.std.specs.Prelude.{◌≡◌, ◌↔◌, ◌+◌, ◌^◌, ◌+ℤ◌, ◌-ℤ◌, ◌*ℤ◌, pos, length, map, IsTrue, All};
ghost use Rattle.integers.specs.Size.{Size};
ghost use Rattle.bounds_model.specs.Numbers.{AllNumbered, IsWithin};
ghost use Rattle.bounds_model.specs.Plane.{point_at};
ghost use Rattle.bounds_model.specs.Fans.{IsShort, half_directions};
ghost use Rattle.bounds_model.specs.ParallelogramAnswer.{NamesEnds, IsShortChord, IsAcross};
ghost use Rattle.bounded_coords.specs.Clouds.{points_of};
ghost use Rattle.answers.specs.Answers.{vector_of, half_fan_of, chord_of};
ghost use Rattle.fan_checks.specs.Limits.{HasChordLimits, AreBelow};

use answers::{Chord, Chords, Dir, HalfFan};
use bounded_coords::Cloud2;
use directions::quarter_turn;
use fan_test::half_direction;

/// The greatest sum of a chord's weights, and the greatest magnitude of its factor.
const CHORD_LIMIT: u128 = 1 << 39;

/// Whether there are so many chords, which name points, and whose weights and factors are within their limits.
pub(crate) fn are_within_limits(cloud: Cloud2<'_>, chords: &Chords, count: u32) -> bool
    ensures { IsTrue result ↔ HasChordLimits (points_of cloud.entry) count (map chord_of chords.now) }
{
    if chords.len() != count {
        return false;
    }
    if !name_points(cloud, chords) {
        return false;
    }
    are_short(chords)
}

/// Whether the chords name points.
fn name_points(cloud: Cloud2<'_>, chords: &Chords) -> bool
    ensures { IsTrue result ↔ All (NamesEnds (points_of cloud.entry)) (map chord_of chords.now) }
{
    let count = cloud.len();
    for i in 0..chords.len() {
        if !names_below(chords.at(i), count) {
            return false;
        }
    }
    true
}

/// Whether the chord names three of so many points.
fn names_below(chord: Chord, count: u32) -> bool
    ensures { IsTrue result ↔ AreBelow count (chord_of chord) }
{
    chord.a < count && chord.b < count && chord.c < count
}

/// Whether the weights and factors of all chords are within their limits.
fn are_short(chords: &Chords) -> bool
    ensures { IsTrue result ↔ All IsShortChord (map chord_of chords.now) }
{
    for i in 0..chords.len() {
        if !is_short(chords.at(i)) {
            return false;
        }
    }
    true
}

/// Whether a chord's weights and its factor are within their limits.
fn is_short(chord: Chord) -> bool
    ensures { IsTrue result ↔ IsShortChord (chord_of chord) }
{
    if chord.beta > CHORD_LIMIT {
        return false;
    }
    if chord.gamma > CHORD_LIMIT {
        return false;
    }
    let weight = chord.beta + chord.gamma;
    1 <= weight && weight <= CHORD_LIMIT && chord.k.unsigned_abs() <= CHORD_LIMIT
}

/// Whether each direction of the fan has a chord across it.
pub(crate) fn are_across(cloud: Cloud2<'_>, fan: &HalfFan, chords: &Chords) -> bool
    requires directions { All IsShort (half_directions (half_fan_of fan.now)) }
    requires limits { HasChordLimits (points_of cloud) (length fan.now.cones + 1) (map chord_of chords.now) }
    ensures { IsTrue result ↔ AllNumbered
        (λ i chord. IsAcross (points_of cloud.entry) (point_at (half_directions (half_fan_of fan.now)) i) chord) (map chord_of chords.now) }
{
    for i in 0..chords.len() {
        if !is_across(cloud, half_direction(fan, i), chords.at(i)) {
            return false;
        }
    }
    true
}

/// Whether the chord is across the direction.
fn is_across(cloud: Cloud2<'_>, d: Dir, chord: Chord) -> bool
    requires direction { IsShort (vector_of d) }
    requires names { NamesEnds (points_of cloud) (chord_of chord) }
    requires short { IsShortChord (chord_of chord) }
    ensures { IsTrue result ↔ IsAcross (points_of cloud.entry) (vector_of d) (chord_of chord) }
{
    let (a, b, c) = (cloud.at(chord.a), cloud.at(chord.b), cloud.at(chord.c));
    let across = quarter_turn(d);
    if !leads_along(chord, a.x(), b.x(), c.x(), across.x) {
        return false;
    }
    leads_along(chord, a.y(), b.y(), c.y(), across.y)
}

/// Whether in one coordinate beta times the way from a to b, and gamma times the way from a to c, is the factor times that of a direction.
fn leads_along(chord: Chord, a: i32, b: i32, c: i32, along: i128) -> bool
    requires short { IsShortChord (chord_of chord) }
    requires a { Size 200000 a }
    requires b { Size 200000 b }
    requires c { Size 200000 c }
    requires along { IsWithin 400000 along }
    ensures { IsTrue result ↔ (pos chord.beta *ℤ (b -ℤ a) +ℤ pos chord.gamma *ℤ (c -ℤ a) ≡ chord.k *ℤ along) }
{
    let way = weighted(chord.beta as i64, chord.gamma as i64, a, b, c);
    are_equal(way, product(chord.k as i64, along as i64))
}

/// Beta times the way from a to b, and gamma times the way from a to c, in one coordinate.
fn weighted(beta: i64, gamma: i64, a: i32, b: i32, c: i32) -> i64
    requires beta { Size (2 ^ 39) beta }
    requires gamma { Size (2 ^ 39) gamma }
    requires a { Size 200000 a }
    requires b { Size 200000 b }
    requires c { Size 200000 c }
    ensures value { result ≡ beta *ℤ (b -ℤ a) +ℤ gamma *ℤ (c -ℤ a) }
    ensures size { Size (2 ^ 59) result }
{
    beta * (b as i64 - a as i64) + gamma * (c as i64 - a as i64)
}

/// The factor of a chord times a coordinate of a direction.
fn product(k: i64, x: i64) -> i64
    requires k { Size (2 ^ 39) k }
    requires x { Size 400000 x }
    ensures value { result ≡ k *ℤ x }
    ensures size { Size (2 ^ 58) result }
{
    k * x
}

/// Whether two numbers are equal.
fn are_equal(x: i64, y: i64) -> bool
    ensures { IsTrue result ↔ (x ≡ y) }
{
    x == y
}
