//! The text of circles between the line of the size and the last line, both ways.
ghost use Rattle.std.specs.Prelude.{◌≡◌, [], ◌++◌, OnOk};
ghost use Rattle.bounds_model.specs.AnswerText.Kinds.{circle_kind};
ghost use Rattle.bounds_model.specs.AnswerText.Written.{body_bytes};
ghost use Rattle.answers.specs.Answers.{answer_of};
ghost use Rattle.answer_lines.specs.Lines.{lines_left};
ghost use Rattle.answer_lines.specs.Outcomes.{Reads};
ghost use Rattle.witness_format.specs.Bodies.{circle_body};
ghost use Rattle.witness_format.specs.Kinds.{body_of};

use crate::ReadFault;
use answer_lines::{Unread, push_counted, push_titled, read_counted, read_titled};
use answers::{Answer, BallAnswer2};
use exact_fractions::Frac;
use std::alloc::AllocError;

// ---- reading

/// The body, of an answer of this size.
pub(crate) fn read_circle(text: &mut Unread<'_>, size: Frac) -> Result<Answer, ReadFault>
    ensures { Reads (λ a. (answer_of a, lines_left text.new)) result (body_of circle_kind size (lines_left text.old)) }
{
    let center = read_titled(text, b"center")?;
    let supports = read_counted(text, b"supports", 1)?;
    Ok(Answer::Circle(BallAnswer2 {
        size,
        center,
        supports,
    }))
}

// ---- printing

/// The body.
pub(crate) fn push_circle(text: &mut Vec<u8>, a: &BallAnswer2) -> Result<(), AllocError>
    ensures { OnOk result (text.new.items ≡ text.old.items ++ body_bytes circle_kind.body [] (circle_body a.now)) }
{
    push_titled(text, b"center", &a.center)?;
    push_counted(text, b"supports", 0, a.supports.as_slice())
}
