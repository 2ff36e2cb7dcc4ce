//! Answers at the scale of a point file.
ghost use Rattle.std.specs.Prelude.{◌↔◌, IsTrue, IfOk, OnErr};
ghost use Rattle.bounds_model.specs.Asks.{IsValid};
ghost use Rattle.bounds_model.specs.Answers.{IsFirstOfBest};
ghost use Rattle.bounds_model.specs.Reports.{PassesAt, IsBestAt};
ghost use Rattle.bounded_coords.specs.Asked.{asked, lent};
ghost use Rattle.answers.specs.Answers.{answer_of, report_of};
ghost use Rattle.witness_check.specs.Kinds.{WantsMemory};
ghost use Rattle.witness_check.specs.Files.{file_of};

use crate::check;
use answers::Report;
use bounded_coords::{Ask, OutOfMemory, Sets};
use scaled_laws::passing_reports_are_best;
use std::alloc::Global;

/// The greatest scale of a point file.
const GREATEST_SCALE: u16 = 1000;

/// Whether the report is at this scale, from 1 to 1000, and its answer passes for these points, which are given in units of the file.
/// Where it does, it is best among the objects of the true points, which are those over the scale. The only error is that memory is
/// wanting, and only empty rectangles want any.
pub fn check_report(
    alloc: Global,
    ask: &Ask,
    sets: Sets<'_>,
    scale: u16,
    report: &Report,
) -> Result<bool, OutOfMemory>
    requires { IsValid (asked ask.now) }
    ensures passes { IfOk result (λ yes. IsTrue yes ↔ PassesAt (asked ask.now) (file_of scale sets.entry) (report_of report.now)) }
    ensures best { IfOk result (λ yes. IsTrue yes → IsBestAt (asked ask.now) (file_of scale sets.entry) (report_of report.now)) }
    ensures first { IfOk result (λ yes. IsTrue yes → IsFirstOfBest (asked ask.now) (lent sets.entry) (answer_of report.now.answer)) }
    ensures memory { OnErr result (WantsMemory ask.now) }
{
    passing_reports_are_best();
    if scale < 1 || scale > GREATEST_SCALE || report.scale != scale {
        return Ok(false);
    }
    check(alloc, ask, sets, &report.answer)
}
