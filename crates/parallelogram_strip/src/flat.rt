//! The answer for points on one line: a parallelogram without area.
ghost use Rattle.std.specs.Prelude.{◌≡◌, ◌⊎◌, ◌+◌, ◌<◌, ◌≤◌, length, All, IfOk, MatchOption};
ghost use Rattle.bounds_model.specs.ParallelogramAnswer.{PassesParallelogram};
ghost use Rattle.bounded_coords.specs.Clouds.{points_of};
ghost use Rattle.answers.specs.Answers.{half_fan_of, chord_of, parallelogram_of};
ghost use Rattle.parallelogram_strip.specs.PlainFan.{IsPlainFan};
ghost use Rattle.parallelogram_strip.specs.Flat.{AreWide, IsFlatAt, point_chord};

use answers::{Chord, Chords, HalfFan, ParaAnswer};
use bounded_coords::{Cloud2, OutOfMemory};
use directions::{reach, span};
use exact_fractions::Frac;
use std::alloc::Global;

/// The number of the first direction along which the points have no extent, if there is one.
pub(crate) fn flat_direction(cloud: Cloud2<'_>, fan: &HalfFan) -> Option<u32>
    requires { IsPlainFan (points_of cloud) (half_fan_of fan.now) }
    ensures { MatchOption result (AreWide (points_of cloud.entry) (half_fan_of fan.now))
        (λ j. IsFlatAt (points_of cloud.entry) (half_fan_of fan.now) j) }
{
    for j in 0..fan.cones.len() {
        let cone = fan.cones.at(j);
        if reach(cloud, cone.dir, cone.hi, cone.lo) == 0 {
            return Some(j);
        }
    }
    None
}

/// So many chords without length.
fn point_chords(alloc: Global, count: u32) -> Result<Chords, OutOfMemory>
    requires { count ≤ 1000000 }
    ensures count { IfOk result (λ chords. length chords ≡ count) }
    ensures chords { IfOk result (λ chords. All (λ c. chord_of c ≡ point_chord) chords) }
{
    let mut chords = Chords::new(alloc);
    for _ in 0..count {
        chords.push(Chord {
            a: 0,
            b: 0,
            c: 0,
            beta: 1,
            gamma: 0,
            k: 0,
        })?;
    }
    Ok(chords)
}

/// The number of one of the first two directions, and another than the given.
fn other(j: u32) -> u32
    ensures { ((j ≡ 0) × (result ≡ 1)) ⊎ ((0 < j) × (result ≡ 0)) }
{
    if j == 0 { 1 } else { 0 }
}

/// The answer for points that have no extent along the direction of number j.
pub(crate) fn flat(
    alloc: Global,
    cloud: Cloud2<'_>,
    fan: HalfFan,
    j: u32,
) -> Result<ParaAnswer, OutOfMemory>
    requires fan { IsPlainFan (points_of cloud) (half_fan_of fan) }
    requires flat { IsFlatAt (points_of cloud) (half_fan_of fan) j }
    ensures { IfOk result (λ a. PassesParallelogram (points_of cloud.entry) (parallelogram_of a)) }
{
    let chords = point_chords(alloc, fan.cones.len() + 1)?;
    let cone = fan.cones.at(j);
    let base = fan.cones.at(0);
    let second = fan.cones.at(other(j)).dir;
    Ok(ParaAnswer {
        size: Frac::new(0, 1),
        first: cone.dir,
        first_span: span(cloud, cone.dir, cone.hi, cone.lo),
        second,
        second_span: span(cloud, second, base.hi, base.lo),
        fan,
        chords,
    })
}
