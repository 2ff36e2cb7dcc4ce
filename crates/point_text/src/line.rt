//! What one line says.
ghost use Rattle.std.specs.Prelude.{◌≡◌, ◌∷◌, [], ◌++◌, refl, if◌then◌else◌, List, Option, ℕ, ℤ, pos, neg_ℤ, map, Some, None, MatchOption};
ghost use Rattle.bounds_model.specs.PointText.{Meaning, bad_form, number, fields_of, fields_meaning};
ghost use Rattle.bounds_model.specs.PointText.{line_meaning, plane_meaning, space_meaning, scale_meaning};
ghost use Rattle.point_text.specs.Fields.{AreFields, clamped_number, letters};
ghost use Rattle.point_text.specs.Clamps.{clamped};
ghost use Rattle.point_text.specs.Lines.{Means, numbers_of, uncommented, first_field, IsUnsigned, HasNoNumber};

use crate::cuts::{before_comment, ends_field, field_start, has_field, next_field, without_return};
use crate::fields::{Fields, Keyword};
use crate::number::{LIMIT, digits_size};
use bounded_coords::{Point2, Point3};
use byte_tools::cut_digits;

/// What a line says, where `P` are the points.
#[derive(Clone, Copy)]
pub(crate) enum Line<P> {
    /// Nothing: it has no fields.
    Nothing,
    /// That a set ends and the next begins.
    EndOfSet,
    /// That so many units make a whole one. A number past every bound is read as the first one past all.
    Scale(u32),
    /// This point.
    Point(P),
    /// Something else.
    Bad,
    /// As many numbers as a point has, one of which is out of bounds.
    OutOfRange,
}

/// A point that a line can say.
pub(crate) trait TextPoint: Copy {
    /// What a line says whose fields have these numbers.
    ghost numbers_meaning: { List (Option ℤ) → Meaning Self };

    /// What a line says whose fields come to this.
    fn say(fields: Fields) -> Line<Self>
        ensures { (line : List (List ℕ)) → AreFields fields line → Means result (fields_meaning numbers_meaning line) };

    /// A point has fields, and each of them is a number.
    ghost all_numbers: { (numbers_meaning [] ≡ bad_form) × ((more : List (Option ℤ)) → numbers_meaning (None ∷ more) ≡ bad_form) };

    /// Reads the fields of a line, up to a comment, as the coordinates of a point.
    fn read_fields(line: &[u8]) -> Line<Self>
        ensures { Means result (numbers_meaning (numbers_of (uncommented line.now))) };
}

/// The bytes behind a sign, or all where there is none, and whether the sign is a minus.
fn unsigned(text: &[u8]) -> (bool, &[u8])
    ensures { IsUnsigned text.now result.0 result.1.now }
{
    match text {
        [b'-', rest @ ..] => (true, rest),
        [b'+', rest @ ..] => (false, rest),
        rest => (false, rest),
    }
}

/// The number of this magnitude, below 0 or not.
fn signed(negative: bool, size: u32) -> i64
    ensures { result ≡ (if negative then neg_ℤ (pos size) else pos size) }
{
    let size = i64::from(size);
    if negative { -size } else { size }
}

/// The number of the field that a text begins with, clamped, and what stands behind the field. None where it is no number.
fn leading_number(text: &[u8]) -> Option<(i64, &[u8])>
    ensures { MatchOption result (number (first_field text.now) ≡ None)
        (λ parts. (clamped_number (first_field text.now) ≡ Some parts.0) × (text.now ≡ first_field text.now ++ parts.1.now)) }
{
    let (negative, digits) = unsigned(text);
    let (size, rest) = cut_digits(LIMIT, 0, digits);
    if rest.len() == digits.len() || !ends_field(rest) {
        return None;
    }
    Some((signed(negative, size), rest))
}

/// The number of the first field of a line, clamped, and what stands behind the field. None where there is no field before a
/// comment or it is no number.
fn next_number(line: &[u8]) -> Option<(i64, &[u8])>
    ensures { MatchOption result (HasNoNumber (numbers_of (uncommented line.now)))
        (λ parts. (z : ℤ) × (parts.0 ≡ clamped z) × (numbers_of (uncommented line.now) ≡ Some z ∷ numbers_of (uncommented parts.1.now))) }
{
    let start = field_start(line)?;
    leading_number(&line[start..])
}

/// What a line of this one word says.
fn word_line<P: Copy>(word: Keyword) -> Line<P>
    ensures { (numbers_meaning : List (Option ℤ) → Meaning P) → Means result (fields_meaning numbers_meaning (letters word ∷ [])) }
{
    match word {
        Keyword::Separator => Line::EndOfSet,
        Keyword::Scale => Line::Bad,
    }
}

/// What a line of these two numbers says.
fn plane_line(x: i64, y: i64) -> Line<Point2>
    ensures { Means result (plane_meaning (Some x ∷ Some y ∷ [])) }
{
    match Point2::new(x, y) {
        Some(p) => Line::Point(p),
        None => Line::OutOfRange,
    }
}

impl TextPoint for Point2 {
    ghost numbers_meaning = { plane_meaning };

    ghost all_numbers = { (refl, λ more. refl) };

    fn say(fields: Fields) -> Line<Point2> {
        match fields {
            Fields::Empty => Line::Nothing,
            Fields::Word(word) => word_line(word),
            Fields::Scale(size) => Line::Scale(size),
            Fields::Two(x, y) => plane_line(x, y),
            _ => Line::Bad,
        }
    }

    fn read_fields(line: &[u8]) -> Line<Point2> {
        let Some((x, rest)) = next_number(line) else {
            return Line::Bad;
        };
        let Some((y, rest)) = next_number(rest) else {
            return Line::Bad;
        };
        if has_field(rest) {
            return Line::Bad;
        }
        plane_line(x, y)
    }
}

/// What a line of these three numbers says.
fn space_line(x: i64, y: i64, z: i64) -> Line<Point3>
    ensures { Means result (space_meaning (Some x ∷ Some y ∷ Some z ∷ [])) }
{
    match Point3::new(x, y, z) {
        Some(p) => Line::Point(p),
        None => Line::OutOfRange,
    }
}

impl TextPoint for Point3 {
    ghost numbers_meaning = { space_meaning };

    ghost all_numbers = { (refl, λ more. refl) };

    fn say(fields: Fields) -> Line<Point3> {
        match fields {
            Fields::Empty => Line::Nothing,
            Fields::Word(word) => word_line(word),
            Fields::Scale(size) => Line::Scale(size),
            Fields::Three(x, y, z) => space_line(x, y, z),
            _ => Line::Bad,
        }
    }

    fn read_fields(line: &[u8]) -> Line<Point3> {
        let Some((x, rest)) = next_number(line) else {
            return Line::Bad;
        };
        let Some((y, rest)) = next_number(rest) else {
            return Line::Bad;
        };
        let Some((z, rest)) = next_number(rest) else {
            return Line::Bad;
        };
        if has_field(rest) {
            return Line::Bad;
        }
        space_line(x, y, z)
    }
}

/// What a line says whose first field is `scale`, given what stands behind it.
fn scale_line<P: TextPoint>(rest: &[u8]) -> Line<P>
    ensures { Means result (scale_meaning (fields_of rest.now)) }
{
    match next_field(rest) {
        Some((digits, rest)) if next_field(rest).is_none() => match digits_size(digits) {
            Some(size) => Line::Scale(size),
            None => Line::Bad,
        },
        _ => Line::Bad,
    }
}

/// What a line says that is no point, given up to its comment.
fn pointless_line<P: TextPoint>(content: &[u8]) -> Line<P>
    requires { P.numbers_meaning (numbers_of content.now) ≡ bad_form }
    ensures { Means result (fields_meaning P.numbers_meaning (fields_of content.now)) }
{
    match next_field(content) {
        None => Line::Nothing,
        Some((field, rest)) => {
            if field == b"---".as_slice() && next_field(rest).is_none() {
                Line::EndOfSet
            } else if field == b"scale".as_slice() {
                scale_line(rest)
            } else {
                Line::Bad
            }
        }
    }
}

/// Reads a line, which is given without its line feed.
pub(crate) fn read_line<P: TextPoint>(line: &[u8]) -> Line<P>
    ensures { Means result (line_meaning P.numbers_meaning line.now) }
{
    let line = without_return(line);
    if line == b"---".as_slice() {
        return Line::EndOfSet;
    }
    // Nearly all other lines are points: whether one is something else is asked only where it is none.
    match P::read_fields(line) {
        Line::Bad => pointless_line(before_comment(line)),
        line => line,
    }
}
