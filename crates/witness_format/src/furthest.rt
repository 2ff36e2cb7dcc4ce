//! The text of furthest corners between the line of the size and the last line, both ways.
ghost use Rattle.std.specs.Prelude.{◌≡◌, [], ◌++◌, OnOk};
ghost use Rattle.bounds_model.specs.AnswerText.Kinds.{furthest_kind};
ghost use Rattle.bounds_model.specs.AnswerText.Written.{body_bytes};
ghost use Rattle.answers.specs.Answers.{answer_of};
ghost use Rattle.answer_lines.specs.Lines.{lines_left};
ghost use Rattle.answer_lines.specs.Outcomes.{ReadsOr};
ghost use Rattle.witness_format.specs.Bodies.{furthest_body};
ghost use Rattle.witness_format.specs.Kinds.{body_of};

use crate::ReadFault;
use answer_lines::{Unread, push_counted, read_listed};
use answers::{Answer, FurthestAnswer};
use exact_fractions::Frac;
use std::alloc::{AllocError, Global};

/// The most corners.
const MOST: u32 = 10000;

// ---- reading

/// The body, of an answer of this size.
pub(crate) fn read_furthest(
    alloc: Global,
    text: &mut Unread<'_>,
    size: Frac,
) -> Result<Answer, ReadFault>
    ensures { ReadsOr (Unit {0}) (λ a. (answer_of a, lines_left text.new)) result (body_of furthest_kind size (lines_left text.old)) }
{
    let entries = read_listed(alloc, text, b"corners", 1, MOST, 0)?;
    Ok(Answer::Furthest(FurthestAnswer { size, entries }))
}

// ---- printing

/// The body.
pub(crate) fn push_furthest(text: &mut Vec<u8>, a: &FurthestAnswer) -> Result<(), AllocError>
    ensures { OnOk result (text.new.items ≡ text.old.items ++ body_bytes furthest_kind.body [] (furthest_body a.now)) }
{
    push_counted(text, b"corners", 0, a.entries.as_slice())
}
