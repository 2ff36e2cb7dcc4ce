//! The laws of the answer text: a text and what it spells, an answer or a report at a scale, determine each other.
ghost use Rattle.text_laws.specs.Laws.{ReadsWhatIsSpelled, SpellsOne, BeginsNoOther, IsSpelledShort};
ghost use Rattle.text_laws.specs.Laws.{ReadsReports, SpellsOneReport, BeginsNoOtherReport, AreReportsShort};

// ---- answers

/// A text reads as an answer exactly where it is the spelling of that answer, which keeps its ranges.
pub fn reads_what_is_spelled()
    ensures { ReadsWhatIsSpelled }
{}

/// Bytes spell at most one answer.
pub fn spells_one()
    ensures { SpellsOne }
{}

/// No spelling is the beginning of another.
pub fn begins_no_other()
    ensures { BeginsNoOther }
{}

/// A spelling has fewer than 2 ^ 23 bytes.
pub fn is_spelled_short()
    ensures { IsSpelledShort }
{}

// ---- reports

/// A text reads as a report exactly where it is the spelling of that report, which keeps its ranges.
pub fn reads_reports()
    ensures { ReadsReports }
{}

/// Bytes spell at most one report.
pub fn spells_one_report()
    ensures { SpellsOneReport }
{}

/// No spelling of a report is the beginning of another.
pub fn begins_no_other_report()
    ensures { BeginsNoOtherReport }
{}

/// A spelling of a report has fewer than 2 ^ 23 bytes.
pub fn are_reports_short()
    ensures { AreReportsShort }
{}
