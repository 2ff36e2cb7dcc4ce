//! The text of annuli between the line of the size and the last line, both ways.
ghost use Rattle.std.specs.Prelude.{◌≡◌, [], ◌++◌, OnOk};
ghost use Rattle.bounds_model.specs.AnswerText.Kinds.{annulus_kind};
ghost use Rattle.bounds_model.specs.AnswerText.Written.{body_bytes};
ghost use Rattle.answers.specs.Answers.{answer_of};
ghost use Rattle.answer_lines.specs.Lines.{lines_left};
ghost use Rattle.answer_lines.specs.Outcomes.{Reads};
ghost use Rattle.witness_format.specs.Bodies.{annulus_body};
ghost use Rattle.witness_format.specs.Kinds.{body_of};

use crate::ReadFault;
use answer_lines::{Unread, push_counted, push_titled, read_counted, read_titled};
use answers::{AnnulusAnswer, Answer};
use exact_fractions::Frac;
use std::alloc::AllocError;

// ---- reading

/// The body, of an answer of this size.
pub(crate) fn read_annulus(text: &mut Unread<'_>, size: Frac) -> Result<Answer, ReadFault>
    ensures { Reads (λ a. (answer_of a, lines_left text.new)) result (body_of annulus_kind size (lines_left text.old)) }
{
    let center = read_titled(text, b"center")?;
    let inner = read_titled(text, b"inner")?;
    let outer = read_titled(text, b"outer")?;
    let pairs = read_counted(text, b"pairs", 1)?;
    Ok(Answer::Annulus(AnnulusAnswer {
        size,
        center,
        inner,
        outer,
        pairs,
    }))
}

// ---- printing

/// The body.
pub(crate) fn push_annulus(text: &mut Vec<u8>, a: &AnnulusAnswer) -> Result<(), AllocError>
    ensures { OnOk result (text.new.items ≡ text.old.items ++ body_bytes annulus_kind.body [] (annulus_body a.now)) }
{
    push_titled(text, b"center", &a.center)?;
    push_titled(text, b"inner", &a.inner)?;
    push_titled(text, b"outer", &a.outer)?;
    push_counted(text, b"pairs", 0, a.pairs.as_slice())
}
