//! The text of shells between the line of the size and the last line, both ways.
ghost use Rattle.std.specs.Prelude.{◌≡◌, [], ◌++◌, OnOk};
ghost use Rattle.bounds_model.specs.AnswerText.Kinds.{shell_kind};
ghost use Rattle.bounds_model.specs.AnswerText.Written.{body_bytes};
ghost use Rattle.answers.specs.Answers.{answer_of};
ghost use Rattle.answer_lines.specs.Lines.{lines_left};
ghost use Rattle.answer_lines.specs.Outcomes.{Reads};
ghost use Rattle.witness_format.specs.Bodies.{shell_body};
ghost use Rattle.witness_format.specs.Kinds.{body_of};

use crate::ReadFault;
use answer_lines::{Unread, push_counted, push_titled, read_counted, read_titled};
use answers::{Answer, ShellAnswer, Span};
use exact_fractions::Frac;
use std::alloc::AllocError;

// ---- reading

/// The body, of an answer of this size.
pub(crate) fn read_shell(text: &mut Unread<'_>, size: Frac) -> Result<Answer, ReadFault>
    ensures { Reads (λ a. (answer_of a, lines_left text.new)) result (body_of shell_kind size (lines_left text.old)) }
{
    let center = read_titled(text, b"center")?;
    let levels: Span = read_titled(text, b"levels")?;
    let pairs = read_counted(text, b"pairs", 1)?;
    Ok(Answer::Shell(ShellAnswer {
        size,
        center,
        low: levels.lo,
        high: levels.hi,
        pairs,
    }))
}

// ---- printing

/// The body.
pub(crate) fn push_shell(text: &mut Vec<u8>, a: &ShellAnswer) -> Result<(), AllocError>
    ensures { OnOk result (text.new.items ≡ text.old.items ++ body_bytes shell_kind.body [] (shell_body a.now)) }
{
    let levels = levels(a);
    push_titled(text, b"center", &a.center)?;
    push_titled(text, b"levels", &levels)?;
    push_counted(text, b"pairs", 0, a.pairs.as_slice())
}

/// The levels of both spheres.
fn levels(a: &ShellAnswer) -> Span
    ensures { result ≡ record { lo = a.now.low; hi = a.now.high } }
{
    Span {
        lo: a.low,
        hi: a.high,
    }
}
