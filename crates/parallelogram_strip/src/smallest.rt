//! The smallest parallelogram.
ghost use Rattle.std.specs.Prelude.{◌≡◌, IfOk};
ghost use Rattle.bounds_model.specs.ParallelogramAnswer.{PassesParallelogram};
ghost use Rattle.bounded_coords.specs.Clouds.{points_of};
ghost use Rattle.answers.specs.Answers.{half_fan_of, parallelogram_of};
ghost use Rattle.parallelogram_strip.specs.PlainFan.{IsPlainFan};
ghost use Rattle.parallelogram_strip.specs.Flat.{AreWide};
ghost use Rattle.parallelogram_strip.specs.AllChords.{AreAllChords};

use crate::around::cone_at;
use crate::chords::{AllChords, chords_around};
use crate::flat::{flat, flat_direction};
use answers::{HalfFan, ParaAnswer};
use bounded_coords::{Cloud2, OutOfMemory};
use directions::span;
use exact_fractions::Frac;
use std::alloc::Global;

/// The parallelogram of the best direction: one strip along it, the other along the direction that the two cones at its chord share.
fn best_answer(cloud: Cloud2<'_>, fan: HalfFan, all: AllChords) -> ParaAnswer
    requires fan { IsPlainFan (points_of cloud) (half_fan_of fan) }
    requires wide { AreWide (points_of cloud) (half_fan_of fan) }
    requires chords { AreAllChords (points_of cloud) (half_fan_of fan) all }
    ensures { PassesParallelogram (points_of cloud.entry) (parallelogram_of result) }
{
    let best = all.best;
    let cone = fan.cones.at(best.direction);
    let far = cone_at(&fan, best.near + 1);
    ParaAnswer {
        size: Frac::new(best.area(), best.weight()),
        first: cone.dir,
        first_span: span(cloud, cone.dir, cone.hi, cone.lo),
        second: far.dir,
        second_span: span(cloud, far.dir, far.hi, far.lo),
        fan,
        chords: all.chords,
    }
}

/// A parallelogram of least area around the points, with a chord for each direction of the fan.
pub(crate) fn parallelogram_of_fan(
    alloc: Global,
    cloud: Cloud2<'_>,
    fan: HalfFan,
) -> Result<ParaAnswer, OutOfMemory>
    requires { IsPlainFan (points_of cloud) (half_fan_of fan) }
    ensures { IfOk result (λ a. PassesParallelogram (points_of cloud.entry) (parallelogram_of a)) }
{
    match flat_direction(cloud, &fan) {
        Some(j) => flat(alloc, cloud, fan, j),
        None => {
            let all = chords_around(alloc, cloud, &fan)?;
            Ok(best_answer(cloud, fan, all))
        }
    }
}
