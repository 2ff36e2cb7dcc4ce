//! The text of centres between the line of the size and the last line, both ways.
ghost use Rattle.std.specs.Prelude.{◌≡◌, [], ◌++◌, OnOk};
ghost use Rattle.bounds_model.specs.AnswerText.Kinds.{centres_kind};
ghost use Rattle.bounds_model.specs.AnswerText.Written.{body_bytes};
ghost use Rattle.answers.specs.Answers.{answer_of};
ghost use Rattle.answer_lines.specs.Lines.{lines_left};
ghost use Rattle.answer_lines.specs.Outcomes.{Reads};
ghost use Rattle.witness_format.specs.Bodies.{centres_body};
ghost use Rattle.witness_format.specs.Kinds.{body_of};

use crate::ReadFault;
use answer_lines::{Unread, push_counted, read_counted};
use answers::{Answer, CentresAnswer};
use exact_fractions::Frac;
use std::alloc::AllocError;

// ---- reading

/// The body, of an answer of this size.
pub(crate) fn read_centres(text: &mut Unread<'_>, size: Frac) -> Result<Answer, ReadFault>
    ensures { Reads (λ a. (answer_of a, lines_left text.new)) result (body_of centres_kind size (lines_left text.old)) }
{
    let squares = read_counted(text, b"squares", 1)?;
    let leaves = read_counted(text, b"leaves", 0)?;
    Ok(Answer::Centres(CentresAnswer {
        size,
        squares,
        leaves,
    }))
}

// ---- printing

/// The body.
pub(crate) fn push_centres(text: &mut Vec<u8>, a: &CentresAnswer) -> Result<(), AllocError>
    ensures { OnOk result (text.new.items ≡ text.old.items ++ body_bytes centres_kind.body [] (centres_body a.now)) }
{
    push_counted(text, b"squares", 0, a.squares.as_slice())?;
    push_counted(text, b"leaves", 0, a.leaves.as_slice())
}
