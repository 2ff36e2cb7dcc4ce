//! An answer text, read line by line.
ghost use Rattle.std.specs.Prelude.{◌≡◌, ◌≤◌, ◌^◌, [], ◌∷◌, length, IfOk};
ghost use Rattle.bounds_model.specs.Answers as model;
ghost use Rattle.bounds_model.specs.Reports as reports;
ghost use Rattle.bounds_model.specs.AnswerText.Heads.{plain, scaled};
ghost use Rattle.bounds_model.specs.AnswerText.Kinds.{kinds};
ghost use Rattle.bounds_model.specs.AnswerText.Reading.{all_lines, reading, reading_report};
ghost use Rattle.bounds_model.specs.AnswerText.Spelling.{Spells, SpellsReport};
ghost use Rattle.answers.specs.Answers.{answer_of, report_of};
ghost use Rattle.answer_lines.specs.Lines.{lines_left};
ghost use Rattle.answer_lines.specs.Outcomes.{ReadsOr, IsFound};
ghost use Rattle.witness_format.specs.Heads.{known_formats};
ghost use Rattle.witness_format.specs.Kinds.{format_of, MayWant, ReportMayWant, TextMayWant, body_of, report_by};

use crate::ReadFault;
use crate::annulus::read_annulus;
use crate::centres::read_centres;
use crate::circle::read_circle;
use crate::distance::read_distance;
use crate::empty::read_empty;
use crate::four::read_four;
use crate::furthest::read_furthest;
use crate::head::{Formats, read_head};
use crate::kgon::read_kgon;
use crate::kinds::AnswerKind;
use crate::parallelogram::read_parallelogram;
use crate::rectangle::read_rectangle;
use crate::shell::read_shell;
use crate::sphere::read_sphere;
use crate::strip::read_strip;
use answer_lines::{Unread, read_titled};
use answers::{Answer, Report};
use exact_fractions::Frac;
use std::alloc::Global;

/// Reads an answer text in whole units. The first line that is refused decides, and on one line its form goes before a
/// number past the limit, and that before a number outside its range. Memory may be wanting for
/// the lists of fans and polygons, and for nothing else.
pub fn read(alloc: Global, bytes: &[u8]) -> Result<Answer, ReadFault>
    requires { length bytes.now ≤ 2 ^ 23 }
    ensures reading { ReadsOr (TextMayWant kinds (all_lines bytes.now)) answer_of result (reading bytes.now) }
    // What is read is spelled so.
    ensures spelled { IfOk result (λ answer. Spells bytes.now (answer_of answer)) }
    // What is spelled so is read, unless memory is wanting.
    ensures found { (a : model.Answer) → Spells bytes.now a → IsFound (TextMayWant kinds (all_lines bytes.now)) result
        (λ answer. answer_of answer ≡ a) }
{
    read_answer(alloc, bytes)
}

/// Reads an answer text in whole units or at a scale, as `read` does.
pub fn read_report(alloc: Global, bytes: &[u8]) -> Result<Report, ReadFault>
    requires { length bytes.now ≤ 2 ^ 23 }
    ensures reading { ReadsOr (ReportMayWant (plain ∷ scaled ∷ []) kinds (all_lines bytes.now)) report_of result (reading_report bytes.now) }
    // What is read is spelled so.
    ensures spelled { IfOk result (λ report. SpellsReport bytes.now (report_of report)) }
    // What is spelled so is read, unless memory is wanting.
    ensures found { (r : reports.Report) → SpellsReport bytes.now r
        → IsFound (ReportMayWant (plain ∷ scaled ∷ []) kinds (all_lines bytes.now)) result (λ report. report_of report ≡ r) }
{
    read_lines(alloc, bytes, Formats::Both)
}

/// The answer of a text in whole units.
fn read_answer(alloc: Global, bytes: &[u8]) -> Result<Answer, ReadFault>
    requires { length bytes.now ≤ 2 ^ 23 }
    ensures { ReadsOr (TextMayWant kinds (all_lines bytes.now)) answer_of result (reading bytes.now) }
{
    match read_lines(alloc, bytes, Formats::PlainAlone) {
        Ok(report) => Ok(report.answer),
        Err(fault) => Err(fault),
    }
}

/// Reads the lines of a text one by one.
fn read_lines(alloc: Global, bytes: &[u8], formats: Formats) -> Result<Report, ReadFault>
    requires { length bytes.now ≤ 2 ^ 23 }
    ensures { ReadsOr (ReportMayWant (known_formats formats) kinds (all_lines bytes.now)) report_of result
        (report_by (known_formats formats) kinds (all_lines bytes.now)) }
{
    let mut text = Unread::all(bytes);
    let head = read_head(&mut text, formats)?;
    let answer = read_body(alloc, &mut text, head.kind, head.size)?;
    read_titled::<()>(&mut text, b"end")?;
    text.end()?;
    let scale = head.scale as u16;
    Ok(Report { scale, answer })
}

/// Reads the lines between that of the size and the last one.
fn read_body(
    alloc: Global,
    text: &mut Unread<'_>,
    kind: AnswerKind,
    size: Frac,
) -> Result<Answer, ReadFault>
    ensures { ReadsOr (MayWant (format_of kind))
        (λ a. (answer_of a, lines_left text.new)) result (body_of (format_of kind) size (lines_left text.old)) }
{
    match kind {
        AnswerKind::Circle => read_circle(text, size),
        AnswerKind::Sphere => read_sphere(text, size),
        AnswerKind::Rectangle => read_rectangle(alloc, text, size),
        AnswerKind::Parallelogram => read_parallelogram(alloc, text, size),
        AnswerKind::Strip => read_strip(alloc, text, size),
        AnswerKind::Annulus => read_annulus(text, size),
        AnswerKind::Empty => read_empty(text, size),
        AnswerKind::Kgon => read_kgon(alloc, text, size),
        AnswerKind::Distance => read_distance(text, size),
        AnswerKind::Centres => read_centres(text, size),
        AnswerKind::Furthest => read_furthest(alloc, text, size),
        AnswerKind::Four => read_four(alloc, text, size),
        AnswerKind::Shell => read_shell(text, size),
    }
}
