//! The text of parallelograms between the line of the size and the last line, both ways.
ghost use Rattle.std.specs.Prelude.{◌≡◌, ◌+◌, [], ◌++◌, length, OnOk};
ghost use Rattle.bounds_model.specs.AnswerText.Kinds.{parallelogram_kind};
ghost use Rattle.bounds_model.specs.AnswerText.Written.{body_bytes};
ghost use Rattle.answers.specs.Answers.{answer_of};
ghost use Rattle.answer_lines.specs.Lines.{lines_left};
ghost use Rattle.answer_lines.specs.Outcomes.{ReadsOr};
ghost use Rattle.witness_format.specs.Bodies.{chorded_bytes, parallelogram_body};
ghost use Rattle.witness_format.specs.Kinds.{body_of};

use crate::ReadFault;
use crate::chord_lines::{push_chorded, read_chorded};
use crate::line::{ChordedEnd, Side};
use answer_lines::{
    Unread, add, push_count, push_line, push_titled, read_count, read_line, read_titled,
};
use answers::{Answer, HalfFan, ParaAnswer};
use exact_fractions::Frac;
use std::alloc::{AllocError, Global};

// ---- reading

/// The body, of an answer of this size.
pub(crate) fn read_parallelogram(
    alloc: Global,
    text: &mut Unread<'_>,
    size: Frac,
) -> Result<Answer, ReadFault>
    ensures { ReadsOr (Unit {0}) (λ a. (answer_of a, lines_left text.new)) result (body_of parallelogram_kind size (lines_left text.old)) }
{
    let first: Side = read_titled(text, b"first")?;
    let second: Side = read_titled(text, b"second")?;
    let count = read_count(text, b"fan", 2, 10003)?;
    let (cones, mut chords) = read_chorded(alloc, text, count.saturating_sub(1))?;
    let end: ChordedEnd = read_line(text)?;
    add(&mut chords, end.chord)?;
    let last = end.dir;
    Ok(Answer::Parallelogram(ParaAnswer {
        size,
        first: first.normal,
        first_span: first.span,
        second: second.normal,
        second_span: second.span,
        fan: HalfFan { cones, last },
        chords,
    }))
}

// ---- printing

/// The body.
pub(crate) fn push_parallelogram(text: &mut Vec<u8>, a: &ParaAnswer) -> Result<(), AllocError>
    requires { length a.now.chords ≡ length a.now.fan.cones + 1 }
    ensures { OnOk result (text.new.items ≡ text.old.items ++ body_bytes parallelogram_kind.body [] (parallelogram_body a.now)) }
{
    let first = Side {
        normal: a.first,
        span: a.first_span,
    };
    let second = Side {
        normal: a.second,
        span: a.second_span,
    };
    push_titled(text, b"first", &first)?;
    push_titled(text, b"second", &second)?;
    push_chords(text, a)
}

/// The cones with their chords, and the last direction with the last chord.
fn push_chords(text: &mut Vec<u8>, a: &ParaAnswer) -> Result<(), AllocError>
    requires { length a.now.chords ≡ length a.now.fan.cones + 1 }
    ensures { OnOk result (text.new.items ≡ text.old.items ++ chorded_bytes a.now) }
{
    let cones = a.fan.cones.as_slice();
    let chords = a.chords.as_slice();
    let last = ChordedEnd {
        dir: a.fan.last,
        chord: chords[cones.len()],
    };
    push_count(text, b"fan", cones.len() + 1)?;
    push_chorded(text, cones, chords)?;
    push_line(text, &last)
}
