//! The answers for a cloud.
ghost use Rattle.std.specs.Prelude.{◌+◌, ◌*◌, ◌≤◌, length, IfOk};
ghost use Rattle.bounds_model.specs.StripAnswer as strips;
ghost use Rattle.bounds_model.specs.StripAnswer.{PassesStrip};
ghost use Rattle.bounds_model.specs.Firsts.{IsFirstStrip};
ghost use Rattle.bounds_model.specs.ParallelogramAnswer.{PassesParallelogram};
ghost use Rattle.bounded_coords.specs.Clouds.{points_of};
ghost use Rattle.answers.specs.Answers.{half_fan_of, strip_of, parallelogram_of};
ghost use Rattle.parallelogram_strip.specs.PlainFan.{IsPlainFan};

use crate::smallest::parallelogram_of_fan;
use crate::thinnest::strip_of_fan;
use answers::{HalfFan, ParaAnswer, StripAnswer};
use bounded_coords::{Cloud2, OutOfMemory, Steps};
use hull_calipers::{corners, half_fan};
use optimality::strip::passing_strips_are_first;
use std::alloc::Global;
use std::sync::ledger::Ledger;

/// The first strip of least width around the points, its normal turning from the east up to the west, with the fan which shows that
/// none is narrower: the width is least at right angles to an edge of the hull. Houle and Toussaint, "Computing the width of a set", 1988; CGAL manual, "Bounding Volumes",
/// `min_strip_2`.
pub fn strip<L: Ledger>(
    alloc: Global,
    cloud: Cloud2<'_>,
    steps: &mut Steps<L>,
) -> Result<StripAnswer, OutOfMemory>
    ensures passes { IfOk result (λ a. PassesStrip (points_of cloud.entry) (strip_of a)) }
    ensures first { IfOk result (λ a. IsFirstStrip (points_of cloud.entry) (strips.strip_of (strip_of a))) }
{
    passing_strips_are_first();
    let fan = fan_around(alloc, cloud, steps)?;
    Ok(strip_of_fan(cloud, fan))
}

/// A parallelogram of least area around the points, with the fan and a chord for each of its directions, which show that none is
/// smaller. Schwarz, Teich, Welzl and Evans, "On finding a minimal enclosing parallelogram", 1994; CGAL manual, "Bounding
/// Volumes", `min_parallelogram_2`.
pub fn parallelogram<L: Ledger>(
    alloc: Global,
    cloud: Cloud2<'_>,
    steps: &mut Steps<L>,
) -> Result<ParaAnswer, OutOfMemory>
    ensures { IfOk result (λ a. PassesParallelogram (points_of cloud.entry) (parallelogram_of a)) }
{
    let fan = fan_around(alloc, cloud, steps)?;
    parallelogram_of_fan(alloc, cloud, fan)
}

/// The fan of the points' hull.
fn fan_around<L: Ledger>(
    alloc: Global,
    cloud: Cloud2<'_>,
    steps: &mut Steps<L>,
) -> Result<HalfFan, OutOfMemory>
    ensures { IfOk result (λ fan. IsPlainFan (points_of cloud.entry) (half_fan_of fan)) }
{
    let corners = corners(alloc, cloud)?;
    half_fan(alloc, &corners, steps)
}
