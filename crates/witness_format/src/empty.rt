//! The text of empty rectangles between the line of the size and the last line, both ways.
ghost use Rattle.std.specs.Prelude.{◌≡◌, [], ◌++◌, OnOk};
ghost use Rattle.bounds_model.specs.AnswerText.Kinds.{empty_kind};
ghost use Rattle.bounds_model.specs.AnswerText.Written.{body_bytes};
ghost use Rattle.answers.specs.Answers.{answer_of};
ghost use Rattle.answer_lines.specs.Lines.{lines_left};
ghost use Rattle.answer_lines.specs.Outcomes.{Reads};
ghost use Rattle.witness_format.specs.Bodies.{empty_body};
ghost use Rattle.witness_format.specs.Kinds.{body_of};

use crate::ReadFault;
use crate::line::Edges;
use answer_lines::{Unread, push_titled, read_titled};
use answers::{Answer, EmptyAnswer};
use exact_fractions::Frac;
use std::alloc::AllocError;

// ---- reading

/// The body, of an answer of this size.
pub(crate) fn read_empty(text: &mut Unread<'_>, size: Frac) -> Result<Answer, ReadFault>
    ensures { Reads (λ a. (answer_of a, lines_left text.new)) result (body_of empty_kind size (lines_left text.old)) }
{
    let edges: Edges = read_titled(text, b"rectangle")?;
    let left = read_titled(text, b"left")?;
    let bottom = read_titled(text, b"bottom")?;
    let right = read_titled(text, b"right")?;
    let top = read_titled(text, b"top")?;
    Ok(Answer::Empty(EmptyAnswer {
        size,
        l: edges.left,
        b: edges.bottom,
        r: edges.right,
        t: edges.top,
        left,
        bottom,
        right,
        top,
    }))
}

// ---- printing

/// The body.
pub(crate) fn push_empty(text: &mut Vec<u8>, a: &EmptyAnswer) -> Result<(), AllocError>
    ensures { OnOk result (text.new.items ≡ text.old.items ++ body_bytes empty_kind.body [] (empty_body a.now)) }
{
    let edges = edges(a);
    push_titled(text, b"rectangle", &edges)?;
    push_titled(text, b"left", &a.left)?;
    push_titled(text, b"bottom", &a.bottom)?;
    push_titled(text, b"right", &a.right)?;
    push_titled(text, b"top", &a.top)
}

/// The sides of the rectangle.
fn edges(a: &EmptyAnswer) -> Edges
    ensures { result ≡ record { left = a.now.l; bottom = a.now.b; right = a.now.r; top = a.now.t } }
{
    Edges {
        left: a.l,
        bottom: a.b,
        right: a.r,
        top: a.t,
    }
}
