//! The chords of all directions of a fan, in one way around.
ghost use Rattle.std.specs.Prelude.{◌≡◌, IfOk};
ghost use Rattle.bounds_model.specs.ParallelogramAnswer.{IsShortChord};
ghost use Rattle.bounded_coords.specs.Clouds.{points_of};
ghost use Rattle.answers.specs.Answers.{half_fan_of, chord_of};
ghost use Rattle.parallelogram_strip.specs.PlainFan.{IsPlainFan};
ghost use Rattle.parallelogram_strip.specs.AllChords.{AreAllChords, turned_chord};

use crate::crossing::{Crossing, crossing_at, smaller};
use answers::{Chord, Chords, HalfFan};
use bounded_coords::{Cloud2, OutOfMemory};
use std::alloc::Global;

/// A chord for each direction of the fan, the last included, and the crossing with the least area.
#[derive(Drop)]
pub(crate) struct AllChords {
    pub(crate) chords: Chords,
    pub(crate) best: Crossing,
}

/// The chord for the opposite direction.
fn turned(chord: Chord) -> Chord
    requires { IsShortChord (chord_of chord) }
    ensures { chord_of result ≡ turned_chord (chord_of chord) }
{
    Chord {
        a: chord.a,
        b: chord.b,
        c: chord.c,
        beta: chord.beta,
        gamma: chord.gamma,
        k: -chord.k,
    }
}

/// The chords of all directions. As the direction turns, the line across it moves forward along the cones, so that all searches
/// together go around once.
pub(crate) fn chords_around(
    alloc: Global,
    cloud: Cloud2<'_>,
    fan: &HalfFan,
) -> Result<AllChords, OutOfMemory>
    requires { IsPlainFan (points_of cloud) (half_fan_of fan.now) }
    ensures { IfOk result (λ all. AreAllChords (points_of cloud.entry) (half_fan_of fan.now) all) }
{
    let first = crossing_at(cloud, fan, 0, 0);
    let mut chords = Chords::new(alloc);
    chords.push(first.chord)?;
    let mut best = first;
    let mut last = first;
    for j in 1..fan.cones.len() {
        last = crossing_at(cloud, fan, j, last.near.max(j));
        chords.push(last.chord)?;
        best = smaller(best, last);
    }
    chords.push(turned(first.chord))?;
    Ok(AllChords { chords, best })
}
