//! The answer for a cloud.
ghost use Rattle.std.specs.Prelude.{IfOk};
ghost use Rattle.bounds_model.specs.RectangleAnswer as rectangles;
ghost use Rattle.bounds_model.specs.RectangleAnswer.{PassesRectangle};
ghost use Rattle.bounds_model.specs.Firsts.{IsFirstRectangle};
ghost use Rattle.bounded_coords.specs.Clouds.{points_of};
ghost use Rattle.answers.specs.Answers.{rectangle_of, quarter_fan_of};
ghost use Rattle.min_rectangle.specs.PlainFan.{IsPlainFan};

use crate::smallest::rectangle_of_fan;
use answers::{QuarterFan, RectAnswer};
use bounded_coords::{Cloud2, OutOfMemory, Steps};
use hull_calipers::{corners, quarter_fan};
use optimality::rectangle::passing_rectangles_are_first;
use std::alloc::Global;
use std::sync::ledger::Ledger;

/// The first rectangle of least area around the points, its direction turning from the east up to the north, with the fan which shows
/// that none is smaller: one of its sides is along an edge of the hull. Freeman and Shapira, "Determining the minimum-area encasing rectangle for an arbitrary closed curve", 1975; CGAL manual,
/// "Bounding Volumes", `min_rectangle_2`.
pub fn rectangle<L: Ledger>(
    alloc: Global,
    cloud: Cloud2<'_>,
    steps: &mut Steps<L>,
) -> Result<RectAnswer, OutOfMemory>
    ensures passes { IfOk result (λ a. PassesRectangle (points_of cloud.entry) (rectangle_of a)) }
    ensures first { IfOk result (λ a. IsFirstRectangle (points_of cloud.entry) (rectangles.rectangle_of (rectangle_of a))) }
{
    passing_rectangles_are_first();
    let fan = fan_around(alloc, cloud, steps)?;
    Ok(rectangle_of_fan(cloud, fan))
}

/// The fan of the points' hull.
fn fan_around<L: Ledger>(
    alloc: Global,
    cloud: Cloud2<'_>,
    steps: &mut Steps<L>,
) -> Result<QuarterFan, OutOfMemory>
    ensures { IfOk result (λ fan. IsPlainFan (points_of cloud.entry) (quarter_fan_of fan)) }
{
    let corners = corners(alloc, cloud)?;
    quarter_fan(alloc, &corners, steps)
}
