//! The lines of an answer text, written one by one behind what stands already.
ghost use Rattle.std.specs.Prelude.{◌≡◌, ◌+◌, ◌<◌, ◌^◌, [], ◌∷◌, ◌++◌, length, map, decimal, OnOk};
ghost use Rattle.std.specs.List.{flat_map};
ghost use Rattle.std.specs.Fmt.{signed_decimal};
ghost use Rattle.bounds_model.specs.AnswerText.LineFormats.{titled, untitled};
ghost use Rattle.bounds_model.specs.AnswerText.Fields.{plane_ratio, space_ratio};
ghost use Rattle.bounds_model.specs.AnswerText.Written.{format_line, field_words, fraction_text, size_line};
ghost use Rattle.answer_lines.specs.Printed.{joined, count_bytes, counted_bytes};

use crate::field_list::FieldList;
use crate::line::Line;
use exact_fractions::{Frac, Homog2, Homog3};
use itoa::Buffer;
use std::alloc::AllocError;

// ---- lines

/// A line of a word and a value.
pub fn push_titled<T: Line>(text: &mut Vec<u8>, word: &[u8], value: &T) -> Result<(), AllocError>
    ensures { OnOk result (text.new.items ≡ text.old.items ++ format_line (titled word.now T.Fields.fields) (T.Fields.values (T.parts value.now))) }
{
    push(text, word)?;
    value.parts().print_behind(text)?;
    push(text, b"\n")
}

/// A line of a value alone.
pub fn push_line<T: Line>(text: &mut Vec<u8>, value: &T) -> Result<(), AllocError>
    ensures { OnOk result (text.new.items ≡ text.old.items ++ format_line (untitled T.Fields.fields) (T.Fields.values (T.parts value.now))) }
{
    value.parts().print(text)?;
    push(text, b"\n")
}

/// A word and a number of lines.
pub fn push_count(text: &mut Vec<u8>, word: &[u8], count: usize) -> Result<(), AllocError>
    ensures { OnOk result (text.new.items ≡ text.old.items ++ count_bytes word.now count) }
{
    push(text, word)?;
    push(text, b" ")?;
    push_natural(text, count as u128)?;
    push(text, b"\n")
}

/// A word and a number that is by `less` greater than that of the lines, and these lines.
pub fn push_counted<T: Line>(
    text: &mut Vec<u8>,
    word: &[u8],
    less: usize,
    lines: &[T],
) -> Result<(), AllocError>
    requires { length lines.now + less < 2 ^ 32 }
    ensures { OnOk result (text.new.items ≡ text.old.items ++ counted_bytes word.now less T.Fields.fields (map
        (λ v. T.Fields.values (T.parts v)) lines.now)) }
{
    push_count(text, word, lines.len() + less)?;
    push_lines(text, lines)
}

/// These lines.
fn push_lines<T: Line>(text: &mut Vec<u8>, lines: &[T]) -> Result<(), AllocError>
    ensures { OnOk result (text.new.items ≡ text.old.items ++ flat_map
        (λ v. format_line (untitled T.Fields.fields) (T.Fields.values (T.parts v))) lines.now) }
{
    for line in lines {
        push_line(text, line)?;
    }
    Ok(())
}

/// The line of a size: the word `size`, the fraction, and a line feed.
#[tactic(auto, unfolding(bounds_model::specs::AnswerText::Written::size_line))]
pub fn push_size(text: &mut Vec<u8>, size: &Frac) -> Result<(), AllocError>
    ensures { OnOk result (text.new.items ≡ text.old.items ++ size_line size.now) }
{
    push_titled(text, b"size", size)
}

// ---- parts of lines

/// These bytes.
pub fn push(text: &mut Vec<u8>, piece: &[u8]) -> Result<(), AllocError>
    ensures { OnOk result (text.new.items ≡ text.old.items ++ piece.now) }
{
    text.extend_from_slice(piece)
}

/// A number without a sign, in decimal digits.
pub fn push_natural(text: &mut Vec<u8>, n: u128) -> Result<(), AllocError>
    ensures { OnOk result (text.new.items ≡ text.old.items ++ decimal n) }
{
    text.extend_from_slice(Buffer::new().format(n).as_bytes())
}

/// A whole number.
pub fn push_whole(text: &mut Vec<u8>, n: i128) -> Result<(), AllocError>
    ensures { OnOk result (text.new.items ≡ text.old.items ++ signed_decimal n) }
{
    text.extend_from_slice(Buffer::new().format(n).as_bytes())
}

/// Numerator and denominator, parted by a slash.
pub fn push_fraction(text: &mut Vec<u8>, a: &Frac) -> Result<(), AllocError>
    ensures { OnOk result (text.new.items ≡ text.old.items ++ fraction_text a.now) }
{
    push_natural(text, a.num())?;
    push(text, b"/")?;
    push_natural(text, a.den())
}

/// Two whole numbers.
fn push_pair(text: &mut Vec<u8>, a: i128, b: i128) -> Result<(), AllocError>
    ensures { OnOk result (text.new.items ≡ text.old.items ++ joined (signed_decimal a ∷ signed_decimal b ∷ [])) }
{
    push_whole(text, a)?;
    push(text, b" ")?;
    push_whole(text, b)
}

/// x and y over w.
pub fn push_plane_ratio(text: &mut Vec<u8>, c: &Homog2) -> Result<(), AllocError>
    ensures { OnOk result (text.new.items ≡ text.old.items ++ joined (field_words plane_ratio c.now)) }
{
    push_pair(text, c.x(), c.y())?;
    push(text, b" ")?;
    push_whole(text, c.w())
}

/// x, y and z over w.
pub fn push_space_ratio(text: &mut Vec<u8>, c: &Homog3) -> Result<(), AllocError>
    ensures { OnOk result (text.new.items ≡ text.old.items ++ joined (field_words space_ratio c.now)) }
{
    push_pair(text, c.x(), c.y())?;
    push(text, b" ")?;
    push_pair(text, c.z(), c.w())
}
