//! The one text of an answer, line by line.
ghost use Rattle.std.specs.Prelude.{◌≡◌, ℕ, List, [], ◌++◌, IfOk, OnOk};
ghost use Rattle.bounds_model.specs.Answers.{KeepsRanges};
ghost use Rattle.bounds_model.specs.Reports.{ReportRanges};
ghost use Rattle.bounds_model.specs.AnswerText.Heads.{last_format};
ghost use Rattle.bounds_model.specs.AnswerText.Spelling.{Spells, SpellsReport, format_of};
ghost use Rattle.bounds_model.specs.AnswerText.Written.{body_bytes, format_line};
ghost use Rattle.answers.specs.Answers.{answer_of, report_of};
ghost use Rattle.witness_format.specs.Bodies.{said_of};
ghost use Rattle.witness_format.specs.Heads.{head_lines};

use crate::annulus::push_annulus;
use crate::centres::push_centres;
use crate::circle::push_circle;
use crate::distance::push_distance;
use crate::empty::push_empty;
use crate::four::push_four;
use crate::furthest::push_furthest;
use crate::head::push_head;
use crate::kgon::push_kgon;
use crate::parallelogram::push_parallelogram;
use crate::rectangle::push_rectangle;
use crate::shell::push_shell;
use crate::sphere::push_sphere;
use crate::strip::push_strip;
use answer_lines::push_titled;
use answers::{Answer, Report, full_size, size};
use bounded_coords::OutOfMemory;
use exact_fractions::Frac;
use std::alloc::{AllocError, Global};
use std::marker::Model;

/// The bytes of an answer text.
#[derive(Debug, Drop)]
pub struct AnswerBytes {
    bytes: Vec<u8>,
}

impl Model for AnswerBytes {
    ghost Value = { List ℕ };

    ghost view = { λ text. text.bytes.items };
}

impl AnswerBytes {
    /// The bytes.
    pub fn as_slice(&self) -> &[u8]
        ensures { result.now ≡ self.now }
    {
        self.bytes.as_slice()
    }
}

/// The one text in whole units of an answer that keeps its ranges, as every answer does that was read
/// or that a solver gave.
pub fn print(alloc: Global, answer: &Answer) -> Result<AnswerBytes, OutOfMemory>
    requires { KeepsRanges (answer_of answer.now) }
    ensures { IfOk result (λ text. Spells text (answer_of answer.now)) }
{
    match answer_text(alloc, answer, 1, &size(answer)) {
        Ok(bytes) => Ok(AnswerBytes { bytes }),
        Err(_) => Err(OutOfMemory),
    }
}

/// The one text of a report that keeps its ranges: where its scale is 1, that of its answer in whole units.
pub fn print_report(alloc: Global, report: &Report) -> Result<AnswerBytes, OutOfMemory>
    requires { ReportRanges (report_of report.now) }
    ensures { IfOk result (λ text. SpellsReport text (report_of report.now)) }
{
    match answer_text(alloc, &report.answer, report.scale, &full_size(report)) {
        Ok(bytes) => Ok(AnswerBytes { bytes }),
        Err(_) => Err(OutOfMemory),
    }
}

/// The text of an answer at a scale. The size is given in whole units.
fn answer_text(
    alloc: Global,
    answer: &Answer,
    scale: u16,
    size: &Frac,
) -> Result<Vec<u8>, AllocError>
    requires { KeepsRanges (answer_of answer.now) }
    ensures { IfOk result (λ text. let said = said_of answer.now in text.items ≡ head_lines (format_of scale) said.kind.name scale size.now
        ++ (body_bytes said.kind.body [] said.body ++ format_line last_format tt)) }
{
    let mut text = Vec::new(alloc);
    push_head(&mut text, name(answer), scale, size)?;
    push_body(&mut text, answer)?;
    push_titled(&mut text, b"end", &())?;
    Ok(text)
}

/// The name of the kind.
fn name(answer: &Answer) -> &'static [u8]
    ensures { result.now ≡ (said_of answer.now).kind.name }
{
    match answer {
        Answer::Circle(_) => b"circle",
        Answer::Sphere(_) => b"sphere",
        Answer::Rectangle(_) => b"rectangle",
        Answer::Parallelogram(_) => b"parallelogram",
        Answer::Strip(_) => b"strip",
        Answer::Annulus(_) => b"annulus",
        Answer::Empty(_) => b"empty",
        Answer::Kgon(_) => b"kgon",
        Answer::Distance(_) => b"distance",
        Answer::Centres(_) => b"centres",
        Answer::Furthest(_) => b"furthest",
        Answer::Four(_) => b"centres4",
        Answer::Shell(_) => b"shell",
    }
}

/// The lines between that of the size and the last one.
fn push_body(text: &mut Vec<u8>, answer: &Answer) -> Result<(), AllocError>
    requires { KeepsRanges (answer_of answer.now) }
    ensures { OnOk result (let said = said_of answer.now in text.new.items ≡ text.old.items ++ body_bytes said.kind.body [] said.body) }
{
    match answer {
        Answer::Circle(a) => push_circle(text, a),
        Answer::Sphere(a) => push_sphere(text, a),
        Answer::Rectangle(a) => push_rectangle(text, a),
        Answer::Parallelogram(a) => push_parallelogram(text, a),
        Answer::Strip(a) => push_strip(text, a),
        Answer::Annulus(a) => push_annulus(text, a),
        Answer::Empty(a) => push_empty(text, a),
        Answer::Kgon(a) => push_kgon(text, a),
        Answer::Distance(a) => push_distance(text, a),
        Answer::Centres(a) => push_centres(text, a),
        Answer::Furthest(a) => push_furthest(text, a),
        Answer::Four(a) => push_four(text, a),
        Answer::Shell(a) => push_shell(text, a),
    }
}
