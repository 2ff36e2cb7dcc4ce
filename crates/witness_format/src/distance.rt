//! The text of distances between the line of the size and the last line, both ways.
ghost use Rattle.std.specs.Prelude.{◌≡◌, [], ◌++◌, OnOk};
ghost use Rattle.bounds_model.specs.AnswerText.Kinds.{distance_kind};
ghost use Rattle.bounds_model.specs.AnswerText.Written.{body_bytes};
ghost use Rattle.answers.specs.Answers.{answer_of};
ghost use Rattle.answer_lines.specs.Lines.{lines_left};
ghost use Rattle.answer_lines.specs.Outcomes.{Reads};
ghost use Rattle.witness_format.specs.Bodies.{distance_body};
ghost use Rattle.witness_format.specs.Kinds.{body_of};

use crate::ReadFault;
use answer_lines::{Unread, push_counted, push_titled, read_counted, read_titled};
use answers::{Answer, DistanceAnswer};
use exact_fractions::Frac;
use std::alloc::AllocError;

// ---- reading

/// The body, of an answer of this size.
pub(crate) fn read_distance(text: &mut Unread<'_>, size: Frac) -> Result<Answer, ReadFault>
    ensures { Reads (λ a. (answer_of a, lines_left text.new)) result (body_of distance_kind size (lines_left text.old)) }
{
    let from = read_titled(text, b"from")?;
    let to = read_titled(text, b"to")?;
    let direction = read_titled(text, b"direction")?;
    let pairs = read_counted(text, b"pairs", 1)?;
    Ok(Answer::Distance(DistanceAnswer {
        size,
        from,
        to,
        direction,
        pairs,
    }))
}

// ---- printing

/// The body.
pub(crate) fn push_distance(text: &mut Vec<u8>, a: &DistanceAnswer) -> Result<(), AllocError>
    ensures { OnOk result (text.new.items ≡ text.old.items ++ body_bytes distance_kind.body [] (distance_body a.now)) }
{
    push_titled(text, b"from", &a.from)?;
    push_titled(text, b"to", &a.to)?;
    push_titled(text, b"direction", &a.direction)?;
    push_counted(text, b"pairs", 0, a.pairs.as_slice())
}
