//! The lines of a fan with chords: each holds a cone and the chord across its first direction, and they go to two lists.
ghost use Rattle.std.specs.Prelude.{◌≡◌, ◌≤◌, ◌<◌, ◌++◌, length, map, zip, IfOk, OnOk};
ghost use Rattle.std.specs.List.{flat_map};
ghost use Rattle.bounds_model.specs.AnswerText.Formats.{lines_at};
ghost use Rattle.bounds_model.specs.AnswerText.Kinds.{chorded_fields};
ghost use Rattle.bounds_model.specs.AnswerText.LineFormats.{untitled};
ghost use Rattle.bounds_model.specs.AnswerText.Written.{format_line};
ghost use Rattle.witness_format.specs.Bodies.{chorded_values};
ghost use Rattle.answer_lines.specs.Lines.{lines_left};
ghost use Rattle.answer_lines.specs.Outcomes.{ReadsOr};

use crate::ReadFault;
use crate::line::ChordedCone;
use answer_lines::{Unread, add, list_for, push_line, read_line};
use answers::{Chord, Chords, HalfCone, HalfCones};
use std::alloc::{AllocError, Global};

/// So many lines, as the cones and their chords.
pub(crate) fn read_chorded(
    alloc: Global,
    text: &mut Unread<'_>,
    count: u32,
) -> Result<(HalfCones, Chords), ReadFault>
    requires { count < 1000000 }
    ensures lines { ReadsOr (Unit {0}) (λ x. (map chorded_values (zip x.0 x.1), lines_left text.new)) result
        (lines_at count (untitled chorded_fields) (lines_left text.old)) }
    ensures cones { IfOk result (λ x. length x.0 ≡ count) }
    ensures chords { IfOk result (λ x. length x.1 ≡ count) }
{
    let mut cones: HalfCones = list_for(alloc, text, count);
    // The caller adds the chord across the last direction, which has no cone.
    let mut chords: Chords = list_for(alloc, text, count + 1);
    for _ in 0..count {
        let line: ChordedCone = read_line(text)?;
        add(&mut cones, line.cone)?;
        add(&mut chords, line.chord)?;
    }
    Ok((cones, chords))
}

/// These cones, each with its chord.
pub(crate) fn push_chorded(
    text: &mut Vec<u8>,
    cones: &[HalfCone],
    chords: &[Chord],
) -> Result<(), AllocError>
    requires { length cones.now ≤ length chords.now }
    ensures { OnOk result (text.new.items ≡ text.old.items ++ flat_map (format_line (untitled chorded_fields))
        (map chorded_values (zip cones.now chords.now))) }
{
    let count = cones.len();
    for i in 0..count {
        let (cone, chord) = (cones[i], chords[i]);
        push_line(text, &ChordedCone { cone, chord })?;
    }
    Ok(())
}
