//! An answer at the scale of a point file.
ghost use Rattle.std.specs.Prelude.{◌≡◌, ◌*◌, ◌≤◌};
ghost use Rattle.bounds_model.specs.Asks.{scale_limit};
ghost use Rattle.bounds_model.specs.Reports as model;
ghost use Rattle.answers.specs.Answers.{report_of};

use crate::{Answer, size};
use exact_fractions::Frac;

/// An answer in units of a point file, of which `scale` make a whole one.
#[derive(Debug, Drop, PartialEq, Eq)]
pub struct Report {
    /// How many units of the file make a whole one, from 1 to 1000.
    pub scale: u16,
    /// The answer, its numbers in units of the file.
    pub answer: Answer,
}

/// The size in whole units, in lowest terms: that of the answer over the scale for centres, also for four, and over its square for the
/// other kinds.
pub fn full_size(report: &Report) -> Frac
    requires { model.ReportRanges (report_of report.now) }
    ensures { result ≡ model.full_size (report_of report.now) }
{
    size(&report.answer).over(size_units(report))
}

/// How many units of the size make a whole one.
fn size_units(report: &Report) -> u32
    requires some { 1 ≤ report.now.scale }
    requires limited { report.now.scale ≤ scale_limit }
    ensures units { result ≡ model.size_units (report_of report.now) }
    ensures some { 1 ≤ result }
    ensures limited { result ≤ scale_limit * scale_limit }
{
    let scale = u32::from(report.scale);
    match report.answer {
        Answer::Centres(_) => scale,
        Answer::Four(_) => scale,
        _ => scale * scale,
    }
}
