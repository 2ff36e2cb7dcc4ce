//! The text of strips between the line of the size and the last line, both ways.
ghost use Rattle.std.specs.Prelude.{◌≡◌, [], ◌++◌, OnOk};
ghost use Rattle.bounds_model.specs.AnswerText.Kinds.{strip_kind};
ghost use Rattle.bounds_model.specs.AnswerText.Written.{body_bytes};
ghost use Rattle.answers.specs.Answers.{answer_of};
ghost use Rattle.answer_lines.specs.Lines.{lines_left};
ghost use Rattle.answer_lines.specs.Outcomes.{ReadsOr};
ghost use Rattle.witness_format.specs.Bodies.{strip_body};
ghost use Rattle.witness_format.specs.Kinds.{body_of};

use crate::ReadFault;
use answer_lines::{
    Unread, push_counted, push_line, push_titled, read_line, read_listed, read_titled,
};
use answers::{Answer, HalfFan, StripAnswer};
use exact_fractions::Frac;
use std::alloc::{AllocError, Global};

// ---- reading

/// The body, of an answer of this size.
pub(crate) fn read_strip(
    alloc: Global,
    text: &mut Unread<'_>,
    size: Frac,
) -> Result<Answer, ReadFault>
    ensures { ReadsOr (Unit {0}) (λ a. (answer_of a, lines_left text.new)) result (body_of strip_kind size (lines_left text.old)) }
{
    let direction = read_titled(text, b"direction")?;
    let bounds = read_titled(text, b"bounds")?;
    let cones = read_listed(alloc, text, b"fan", 2, 10003, 1)?;
    let last = read_line(text)?;
    Ok(Answer::Strip(StripAnswer {
        size,
        direction,
        bounds,
        fan: HalfFan { cones, last },
    }))
}

// ---- printing

/// The body.
pub(crate) fn push_strip(text: &mut Vec<u8>, a: &StripAnswer) -> Result<(), AllocError>
    ensures { OnOk result (text.new.items ≡ text.old.items ++ body_bytes strip_kind.body [] (strip_body a.now)) }
{
    push_titled(text, b"direction", &a.direction)?;
    push_titled(text, b"bounds", &a.bounds)?;
    push_counted(text, b"fan", 1, a.fan.cones.as_slice())?;
    push_line(text, &a.fan.last)
}
