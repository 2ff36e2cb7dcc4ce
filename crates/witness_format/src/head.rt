//! The head of an answer text, both ways: the first line, which names the format and the kind, the scale where the format has
//! one, and the size.
ghost use Rattle.std.specs.Prelude.{◌≡◌, ◌≤◌, ◌^◌, ◌*◌, [], ◌∷◌, ◌++◌, IfOk, OnOk};
ghost use Rattle.bounds_model.specs.Asks.{scale_limit};
ghost use Rattle.bounds_model.specs.AnswerText.Formats.{line_at};
ghost use Rattle.bounds_model.specs.AnswerText.Heads as model;
ghost use Rattle.bounds_model.specs.AnswerText.Kinds.{kinds};
ghost use Rattle.bounds_model.specs.AnswerText.Spelling as spelling;
ghost use Rattle.bounds_model.specs.AnswerText.Written.{format_line};
ghost use Rattle.answer_lines.specs.Lines.{words_left, lines_left};
ghost use Rattle.answer_lines.specs.Outcomes.{Finds, Reads};
ghost use Rattle.witness_format.specs.Heads.{text_format, known_formats, named_of, head_of};
ghost use Rattle.witness_format.specs.Heads.{kind_in, named_in, first_at, head_lines};
ghost use Rattle.witness_format.specs.Kinds.{format_of};

use crate::ReadFault;
use crate::kinds::{AnswerKind, kind_of};
use answer_lines::{Unread, Words, push, push_count, push_titled, read_count, read_titled};
use exact_fractions::Frac;
use std::alloc::AllocError;

/// The least scale that a text says. A scale of 1 is not written.
const LEAST_SCALE: u32 = 2;

/// The greatest scale.
const GREATEST_SCALE: u32 = 1000;

/// A format of texts.
#[derive(Clone, Copy, Debug, PartialEq, Eq)]
pub(crate) enum Format {
    /// Numbers in whole units.
    Plain,
    /// Numbers in units of a point file, and the scale of these.
    Scaled,
}

/// The formats that a reader knows.
#[derive(Clone, Copy, Debug, PartialEq, Eq)]
pub(crate) enum Formats {
    /// Whole units alone.
    PlainAlone,
    /// Both formats.
    Both,
}

/// What a first line names.
#[derive(Clone, Copy, Debug, PartialEq, Eq)]
pub(crate) struct Named {
    pub(crate) format: Format,
    pub(crate) kind: AnswerKind,
}

/// What a head says.
#[derive(Clone, Copy, Debug, PartialEq, Eq)]
pub(crate) struct Head {
    pub(crate) kind: AnswerKind,
    /// How many units of the file make a whole one.
    pub(crate) scale: u32,
    /// The size in units of the file.
    pub(crate) size: Frac,
}

// ---- reading

/// The head of a text.
pub(crate) fn read_head(text: &mut Unread<'_>, formats: Formats) -> Result<Head, ReadFault>
    ensures head { Reads (λ head. (head_of head, lines_left text.new)) result
        (model.head_at (known_formats formats) kinds (lines_left text.old)) }
    ensures scale { IfOk result (λ head. head.scale ≤ scale_limit) }
{
    let named = read_first(text, formats)?;
    read_sizes(text, named)
}

/// What the first line names.
fn read_first(text: &mut Unread<'_>, formats: Formats) -> Result<Named, ReadFault>
    ensures { Reads (λ named. (named_of named, lines_left text.new)) result
        (first_at (known_formats formats) kinds (lines_left text.old)) }
{
    let number = text.number;
    let words = text.next_line()?;
    match first_named(words, formats) {
        Some(named) => Ok(named),
        None => Err(ReadFault::BadAnswer(number)),
    }
}

/// What these words of the first line name.
fn first_named(words: Words<'_>, formats: Formats) -> Option<Named>
    ensures { Finds named_of result (named_in (known_formats formats) (words_left words.entry) kinds) }
{
    match kind_named(words, Format::Plain) {
        Some(kind) => Some(Named {
            format: Format::Plain,
            kind,
        }),
        None => match formats {
            Formats::PlainAlone => None,
            Formats::Both => scaled_named(words),
        },
    }
}

/// What they name in the format with a scale.
fn scaled_named(words: Words<'_>) -> Option<Named>
    ensures { Finds named_of result (named_in (model.scaled ∷ []) (words_left words.entry) kinds) }
{
    let kind = kind_named(words, Format::Scaled)?;
    Some(Named {
        format: Format::Scaled,
        kind,
    })
}

/// The kind that these words name in a format.
fn kind_named(words: Words<'_>, format: Format) -> Option<AnswerKind>
    ensures { Finds format_of result (kind_in (text_format format) (words_left words.entry) kinds) }
{
    let words = words.after(b"answer")?;
    let words = words.after(format_word(format))?;
    let (name, words) = words.next()?;
    words.end()?;
    kind_of(name)
}

/// The number of a format.
fn format_word(format: Format) -> &'static [u8]
    ensures { result.now ≡ model.format_word (text_format format) }
{
    match format {
        Format::Plain => b"1",
        Format::Scaled => b"2",
    }
}

/// The scale, where the format has one, and the size.
fn read_sizes(text: &mut Unread<'_>, named: Named) -> Result<Head, ReadFault>
    ensures head { Reads (λ head. (head_of head, lines_left text.new)) result
        (model.sizes_at (text_format named.format) (format_of named.kind) (lines_left text.old)) }
    ensures scale { IfOk result (λ head. head.scale ≤ scale_limit) }
{
    match named.format {
        Format::Plain => read_plain_size(text, named.kind),
        Format::Scaled => read_scaled_size(text, named.kind),
    }
}

/// The size in whole units.
fn read_plain_size(text: &mut Unread<'_>, kind: AnswerKind) -> Result<Head, ReadFault>
    ensures head { Reads (λ head. (head_of head, lines_left text.new)) result
        (model.sizes_at model.plain (format_of kind) (lines_left text.old)) }
    ensures scale { IfOk result (λ head. head.scale ≤ scale_limit) }
{
    let size = read_titled(text, b"size")?;
    Ok(Head {
        kind,
        scale: 1,
        size,
    })
}

/// The scale, and the size, which is given in whole units. One that is too great in units of the file is refused.
fn read_scaled_size(text: &mut Unread<'_>, kind: AnswerKind) -> Result<Head, ReadFault>
    ensures head { Reads (λ head. (head_of head, lines_left text.new)) result
        (model.sizes_at model.scaled (format_of kind) (lines_left text.old)) }
    ensures scale { IfOk result (λ head. head.scale ≤ scale_limit) }
{
    let scale = read_scale(text)?;
    let number = text.number;
    let whole: Frac = read_titled(text, b"size")?;
    let size = own_size(whole, kind, scale, number)?;
    Ok(Head { kind, scale, size })
}

/// The line of the scale.
fn read_scale(text: &mut Unread<'_>) -> Result<u32, ReadFault>
    ensures scale { Reads (λ scale. ((scale, tt), lines_left text.new)) result (line_at model.scale_format (lines_left text.old)) }
    ensures some { IfOk result (λ scale. 2 ≤ scale) }
    ensures limited { IfOk result (λ scale. scale ≤ scale_limit) }
{
    read_count(text, b"scale", LEAST_SCALE, GREATEST_SCALE)
}

/// The size in units of the file, of one in whole units on the line of this number.
fn own_size(whole: Frac, kind: AnswerKind, scale: u32, number: u32) -> Result<Frac, ReadFault>
    requires some { 1 ≤ scale }
    requires limited { scale ≤ scale_limit }
    ensures { Reads (λ size. size) result (model.own_size (format_of kind) scale number whole) }
{
    match whole.times(size_units(kind, scale)) {
        Some(size) => Ok(size),
        None => Err(ReadFault::BadAnswer(number)),
    }
}

/// How many units of a size of this kind make a whole one.
fn size_units(kind: AnswerKind, scale: u32) -> u32
    requires some { 1 ≤ scale }
    requires limited { scale ≤ scale_limit }
    ensures units { result ≡ scale ^ (format_of kind).power }
    ensures some { 1 ≤ result }
    ensures limited { result ≤ scale_limit * scale_limit }
{
    match kind {
        AnswerKind::Centres => scale,
        AnswerKind::Four => scale,
        _ => scale * scale,
    }
}

// ---- printing

/// The head of a kind at a scale. The size is given in whole units.
pub(crate) fn push_head(
    text: &mut Vec<u8>,
    name: &[u8],
    scale: u16,
    size: &Frac,
) -> Result<(), AllocError>
    ensures { OnOk result (text.new.items ≡ text.old.items ++ head_lines (spelling.format_of scale) name.now scale size.now) }
{
    if scale == 1 {
        push_first(text, Format::Plain, name)?;
    } else {
        push_first(text, Format::Scaled, name)?;
        push_count(text, b"scale", scale as usize)?;
    }
    push_titled(text, b"size", size)
}

/// The first line.
fn push_first(text: &mut Vec<u8>, format: Format, name: &[u8]) -> Result<(), AllocError>
    ensures { OnOk result (text.new.items ≡ text.old.items ++ format_line (model.first_format (text_format format) name.now) tt) }
{
    push(text, b"answer ")?;
    push(text, format_word(format))?;
    push(text, b" ")?;
    push(text, name)?;
    push(text, b"\n")
}
