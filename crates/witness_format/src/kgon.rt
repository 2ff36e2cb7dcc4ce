//! The text of polygons between the line of the size and the last line, both ways.
ghost use Rattle.std.specs.Prelude.{◌≡◌, [], ◌++◌, map, OnOk};
ghost use Rattle.bounds_model.specs.AnswerText.Kinds.{kgon_kind};
ghost use Rattle.bounds_model.specs.AnswerText.Written.{body_bytes};
ghost use Rattle.answers.specs.Answers.{answer_of};
ghost use Rattle.answer_lines.specs.Lines.{lines_left};
ghost use Rattle.answer_lines.specs.Outcomes.{ReadsOr};
ghost use Rattle.witness_format.specs.Bodies.{polygon_body};
ghost use Rattle.witness_format.specs.Kinds.{body_of};

use crate::ReadFault;
use crate::potential_rows::{push_rows, read_rows};
use answer_lines::{
    Position, Unread, push_count, push_counted, read_count, read_counted, read_listed,
};
use answers::{Answer, KgonAnswer};
use arrayvec::ArrayVec;
use exact_fractions::Frac;
use std::alloc::{AllocError, Global};

// ---- reading

/// The body, of an answer of this size.
pub(crate) fn read_kgon(
    alloc: Global,
    text: &mut Unread<'_>,
    size: Frac,
) -> Result<Answer, ReadFault>
    ensures { ReadsOr (Unit {0}) (λ a. (answer_of a, lines_left text.new)) result (body_of kgon_kind size (lines_left text.old)) }
{
    let corners = read_listed(alloc, text, b"corners", 1, 128, 0)?;
    let chosen = read_counted(text, b"chosen", 1)?;
    let layers = read_count(text, b"layers", 0, 10)?;
    let longest = corners.len().saturating_sub(1);
    let potentials = read_rows(alloc, text, longest, layers)?;
    Ok(Answer::Kgon(KgonAnswer {
        size,
        corners,
        chosen: numbers_of(&chosen),
        layers,
        potentials,
    }))
}

/// The numbers of these positions.
fn numbers_of(positions: &ArrayVec<Position, 12>) -> ArrayVec<u32, 12>
    ensures { result.items ≡ map (λ p. p.number) positions.now.items }
{
    let mut numbers = ArrayVec::new();
    for position in positions.as_slice() {
        numbers.push(position.number);
    }
    numbers
}

// ---- printing

/// The body.
pub(crate) fn push_kgon(text: &mut Vec<u8>, a: &KgonAnswer) -> Result<(), AllocError>
    ensures { OnOk result (text.new.items ≡ text.old.items ++ body_bytes kgon_kind.body [] (polygon_body a.now)) }
{
    let longest = a.corners.len().saturating_sub(1);
    push_counted(text, b"corners", 0, a.corners.as_slice())?;
    push_counted(text, b"chosen", 0, a.chosen.as_slice())?;
    push_count(text, b"layers", a.layers as usize)?;
    push_rows(text, longest, a.layers, a.potentials.as_slice())
}
