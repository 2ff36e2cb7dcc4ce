//! The text of four centres between the line of the size and the last line, both ways.
ghost use Rattle.std.specs.Prelude.{◌≡◌, [], ◌++◌, OnOk};
ghost use Rattle.bounds_model.specs.AnswerText.Kinds.{four_kind};
ghost use Rattle.bounds_model.specs.AnswerText.Written.{body_bytes};
ghost use Rattle.answers.specs.Answers.{answer_of};
ghost use Rattle.answer_lines.specs.Lines.{lines_left};
ghost use Rattle.answer_lines.specs.Outcomes.{ReadsOr};
ghost use Rattle.witness_format.specs.Bodies.{four_body};
ghost use Rattle.witness_format.specs.Kinds.{body_of};

use crate::ReadFault;
use answer_lines::{Unread, push_counted, read_counted, read_listed};
use answers::{Answer, FourAnswer};
use exact_fractions::Frac;
use std::alloc::{AllocError, Global};

/// The most leaves: sixteen for each of so many heights.
const MOST: u32 = 16000;

// ---- reading

/// The body, of an answer of this size.
pub(crate) fn read_four(
    alloc: Global,
    text: &mut Unread<'_>,
    size: Frac,
) -> Result<Answer, ReadFault>
    ensures { ReadsOr (Unit {0}) (λ a. (answer_of a, lines_left text.new)) result (body_of four_kind size (lines_left text.old)) }
{
    let squares = read_counted(text, b"squares", 4)?;
    let leaves = read_listed(alloc, text, b"leaves", 0, MOST, 0)?;
    Ok(Answer::Four(FourAnswer {
        size,
        squares,
        leaves,
    }))
}

// ---- printing

/// The body.
pub(crate) fn push_four(text: &mut Vec<u8>, a: &FourAnswer) -> Result<(), AllocError>
    ensures { OnOk result (text.new.items ≡ text.old.items ++ body_bytes four_kind.body [] (four_body a.now)) }
{
    push_counted(text, b"squares", 0, a.squares.as_slice())?;
    push_counted(text, b"leaves", 0, a.leaves.as_slice())
}
