//! What holds at every scale of a point file: the true points are those of the file over its scale, and the best object of the true
//! points is the best one of the file's points, with its numbers over the scale. Growing keeps the order of sizes, since it multiplies
//! each by the scale or by its square.
#![tactic(auto)]

ghost use Rattle.scaled_laws.specs.Laws.{PassingReportsAreBest, FullSizesPrint, PassingReportsKeepRanges};

/// A report that passes at a file's scale is best: its object names one of the true points that fits, its full size is that
/// object's in lowest terms, and no object of the kind that fits the true points is better.
pub fn passing_reports_are_best()
    ensures { PassingReportsAreBest }
{}

/// The full size of a report is its answer's size over the units of the scale, in lowest terms.
pub fn full_sizes_print()
    ensures { FullSizesPrint }
{}

/// A report that passes has its numbers in the ranges of an answer text, its size in whole units among them.
pub fn passing_reports_keep_ranges()
    ensures { PassingReportsKeepRanges }
{}
