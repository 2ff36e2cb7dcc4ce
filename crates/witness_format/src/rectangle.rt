//! The text of rectangles between the line of the size and the last line, both ways.
ghost use Rattle.std.specs.Prelude.{◌≡◌, [], ◌++◌, OnOk};
ghost use Rattle.bounds_model.specs.AnswerText.Kinds.{rectangle_kind};
ghost use Rattle.bounds_model.specs.AnswerText.Written.{body_bytes};
ghost use Rattle.answers.specs.Answers.{answer_of};
ghost use Rattle.answer_lines.specs.Lines.{lines_left};
ghost use Rattle.answer_lines.specs.Outcomes.{ReadsOr};
ghost use Rattle.witness_format.specs.Bodies.{rectangle_body};
ghost use Rattle.witness_format.specs.Kinds.{body_of};

use crate::ReadFault;
use answer_lines::{
    Unread, push_counted, push_line, push_titled, read_line, read_listed, read_titled,
};
use answers::{Answer, QuarterFan, RectAnswer};
use exact_fractions::Frac;
use std::alloc::{AllocError, Global};

// ---- reading

/// The body, of an answer of this size.
pub(crate) fn read_rectangle(
    alloc: Global,
    text: &mut Unread<'_>,
    size: Frac,
) -> Result<Answer, ReadFault>
    ensures { ReadsOr (Unit {0}) (λ a. (answer_of a, lines_left text.new)) result (body_of rectangle_kind size (lines_left text.old)) }
{
    let direction = read_titled(text, b"direction")?;
    let along = read_titled(text, b"along")?;
    let across = read_titled(text, b"across")?;
    let cones = read_listed(alloc, text, b"fan", 2, 10003, 1)?;
    let last = read_line(text)?;
    Ok(Answer::Rectangle(RectAnswer {
        size,
        direction,
        along,
        across,
        fan: QuarterFan { cones, last },
    }))
}

// ---- printing

/// The body.
pub(crate) fn push_rectangle(text: &mut Vec<u8>, a: &RectAnswer) -> Result<(), AllocError>
    ensures { OnOk result (text.new.items ≡ text.old.items ++ body_bytes rectangle_kind.body [] (rectangle_body a.now)) }
{
    push_titled(text, b"direction", &a.direction)?;
    push_titled(text, b"along", &a.along)?;
    push_titled(text, b"across", &a.across)?;
    push_counted(text, b"fan", 1, a.fan.cones.as_slice())?;
    push_line(text, &a.fan.last)
}
