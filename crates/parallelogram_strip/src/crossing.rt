//! Where the line across a direction of the fan passes between the vectors of two neighbouring cones, from their lowest to their
//! highest points, and the chord there.
ghost use Rattle.std.specs.Prelude.{◌≡◌, ◌⊎◌, ◌↔◌, ◌∷◌, [], ◌+◌, ◌^◌, ◌<◌, ◌≤◌, ◌≤ℤ◌, pos, length, IsTrue};
ghost use Rattle.bounds_model.specs.Fractions.{HaveNoCommonFactor};
ghost use Rattle.bounds_model.specs.Fans.{IsShort};
ghost use Rattle.bounds_model.specs.ParallelogramAnswer.{IsShortChord};
ghost use Rattle.bounded_coords.specs.Clouds.{points_of};
ghost use Rattle.answers.specs.Answers.{vector_of, half_cone_of, half_fan_of, chord_of};
ghost use Rattle.parallelogram_strip.specs.FullTurn.{cone_at as cone_of_number};
ghost use Rattle.parallelogram_strip.specs.PlainFan.{IsPlainFan};
ghost use Rattle.parallelogram_strip.specs.Crossings.{reach_of, area_of, weight_of, IsChord, Joins, IsNear, IsCrossing, IsNotAbove};

use crate::around::cone_at;
use crate::chord::chord;
use answers::{Chord, Dir, HalfCone, HalfFan};
use bounded_coords::Cloud2;
use directions::{beyond, reach};

/// A direction of the fan, and the chord across it.
#[derive(Clone, Copy)]
pub(crate) struct Crossing {
    /// The number of the direction.
    pub(crate) direction: u32,
    /// The number of the cone before the line, counted on around the turn.
    pub(crate) near: u32,
    /// How far the points reach along the direction.
    pub(crate) width: u128,
    /// The chord.
    pub(crate) chord: Chord,
}

impl Crossing {
    /// The numerator of the area of the parallelogram that has the strip and the chord.
    pub(crate) fn area(&self) -> u128
        requires width { self.now.width ≤ 320000000000 }
        requires chord { IsShortChord (chord_of self.now.chord) }
        ensures value { pos result ≡ area_of self.now }
        ensures limit { result ≤ 2 ^ 78 }
    {
        self.width * self.chord.k.unsigned_abs()
    }

    /// The denominator of that area.
    pub(crate) fn weight(&self) -> u128
        requires { IsShortChord (chord_of self.now.chord) }
        ensures value { pos result ≡ weight_of self.now }
        ensures limit { result ≤ 2 ^ 39 }
    {
        self.chord.beta + self.chord.gamma
    }
}

/// The one with the smaller area.
pub(crate) fn smaller(a: Crossing, b: Crossing) -> Crossing
    requires a_width { a.width ≤ 320000000000 }
    requires a_chord { IsShortChord (chord_of a.chord) }
    requires b_width { b.width ≤ 320000000000 }
    requires b_chord { IsShortChord (chord_of b.chord) }
    ensures one { (result ≡ a) ⊎ (result ≡ b) }
    ensures not_above_a { IsNotAbove result a }
    ensures not_above_b { IsNotAbove result b }
{
    let p = a.area() * b.weight();
    let q = b.area() * a.weight();
    if q < p { b } else { a }
}

/// Whether the vector of the cone of this number does not lie ahead in the direction.
fn is_behind(cloud: Cloud2<'_>, fan: &HalfFan, d: Dir, i: u32) -> bool
    requires fan { IsPlainFan (points_of cloud) (half_fan_of fan.now) }
    requires direction { IsShort (vector_of d) }
    requires listed { i < length fan.now.cones + length fan.now.cones }
    ensures { IsTrue result ↔ (reach_of (points_of cloud.entry) (vector_of d) (cone_of_number (half_fan_of fan.now) i) ≤ℤ pos 0) }
{
    let cone = cone_at(fan, i);
    reach(cloud, d, cone.hi, cone.lo) <= 0
}

/// The number of the cone before the line across the direction of number j, searched forward from a cone that lies ahead.
fn near(cloud: Cloud2<'_>, fan: &HalfFan, j: u32, from: u32) -> u32
    requires fan { IsPlainFan (points_of cloud) (half_fan_of fan.now) }
    requires listed { j < length fan.now.cones }
    requires after { j ≤ from }
    requires before { from < j + length fan.now.cones }
    requires ahead { pos 0 ≤ℤ reach_of (points_of cloud) (cone_of_number (half_fan_of fan.now) j).direction
        (cone_of_number (half_fan_of fan.now) from) }
    ensures { IsNear (points_of cloud.entry) (half_fan_of fan.now) j result }
{
    let d = fan.cones.at(j).dir;
    let last = j + (fan.cones.len() - 1);
    for i in from..last {
        if is_behind(cloud, fan, d, i + 1) {
            return i;
        }
    }
    last
}

/// The chord where the line across a direction passes between the vectors of two neighbouring cones.
fn chord_between(cloud: Cloud2<'_>, d: Dir, near: HalfCone, far: HalfCone) -> Chord
    requires direction { IsShort (vector_of d) }
    requires lowest { HaveNoCommonFactor (d.x ∷ d.y ∷ []) }
    requires near { (near.hi < length (points_of cloud)) × (near.lo < length (points_of cloud)) }
    requires far { (far.hi < length (points_of cloud)) × (far.lo < length (points_of cloud)) }
    requires ahead { pos 0 ≤ℤ reach_of (points_of cloud) (vector_of d) (half_cone_of near) }
    requires behind { reach_of (points_of cloud) (vector_of d) (half_cone_of far) ≤ℤ pos 0 }
    ensures chord { IsChord (points_of cloud.entry) (vector_of d) (chord_of result) }
    ensures joins { Joins (half_cone_of near) (half_cone_of far) (chord_of result) }
{
    if reach(cloud, d, far.hi, near.lo) <= 0 {
        chord(cloud, d, near.lo, near.hi, far.hi)
    } else {
        chord(cloud, d, far.hi, far.lo, near.lo)
    }
}

/// The chord across the direction of number j, searched forward from a cone that lies ahead.
pub(crate) fn crossing_at(cloud: Cloud2<'_>, fan: &HalfFan, j: u32, from: u32) -> Crossing
    requires fan { IsPlainFan (points_of cloud) (half_fan_of fan.now) }
    requires listed { j < length fan.now.cones }
    requires after { j ≤ from }
    requires before { from < j + length fan.now.cones }
    requires ahead { pos 0 ≤ℤ reach_of (points_of cloud) (cone_of_number (half_fan_of fan.now) j).direction
        (cone_of_number (half_fan_of fan.now) from) }
    ensures direction { result.direction ≡ j }
    ensures crossing { IsCrossing (points_of cloud.entry) (half_fan_of fan.now) result }
{
    let cone = fan.cones.at(j);
    let near = near(cloud, fan, j, from);
    Crossing {
        direction: j,
        near,
        width: beyond(cone.dir, cloud.at(cone.lo), cloud.at(cone.hi)),
        chord: chord_between(cloud, cone.dir, cone_at(fan, near), cone_at(fan, near + 1)),
    }
}
