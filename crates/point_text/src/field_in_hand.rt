//! A field, read byte by byte.
ghost use Rattle.std.specs.Prelude.{◌≡◌, ◌≤◌, ◌+◌, ◌*◌, List, ℕ, [], ◌∷◌, ◌++◌, take, length, true, false, MatchOption};
ghost use Rattle.std.specs.Char.{is_ascii_digit};
ghost use Rattle.bounds_model.specs.PointText.{digit_size};
ghost use Rattle.point_text.specs.Clamps.{clamped_size};
ghost use Rattle.point_text.specs.Fields.{IsField, letters};
ghost use Rattle.point_text.specs.InHand.{IsFieldInHand, AddsDigits, is_next_letter};

use crate::fields::{Field, Keyword};
use crate::number::{FAR, LIMIT, Sign};
use byte_tools::cut_digits;

/// The bytes so far of a field.
#[derive(Clone, Copy)]
pub(crate) enum FieldInHand {
    /// None.
    Empty,
    /// `+`.
    Plus,
    /// Digits behind this sign that write this number, or one past it where it is `FAR`.
    Digits(Sign, u32),
    /// So many of a word's first bytes, one at least. The first of `---` may still be a minus.
    Word(Keyword, u8),
    /// Something else, which stays so whatever bytes follow.
    Other,
}

/// What a digit counts, or None where the byte is none.
fn digit(byte: u8) -> Option<u32>
    ensures { MatchOption result (is_ascii_digit byte ≡ false) (λ size. (is_ascii_digit byte ≡ true) × (size ≡ digit_size byte) × (size ≤ 9)) }
{
    if byte.is_ascii_digit() {
        Some(u32::from(byte - b'0'))
    } else {
        None
    }
}

/// The number with one more digit, or `FAR` where that is greater.
fn with_digit(size: u32, digit: u32) -> u32
    requires { digit ≤ 9 }
    ensures { result ≡ clamped_size (10 * clamped_size size + digit) }
{
    (10 * size.min(FAR) + digit).min(FAR)
}

/// Whether this byte is the next one of a word, of which so many were seen.
fn is_next(word: Keyword, seen: u8, byte: u8) -> bool
    ensures next { result ≡ is_next_letter word seen byte }
    ensures within { result ≡ true → seen ≤ 4 }
{
    let index = usize::from(seen);
    let bytes = word.bytes();
    index < bytes.len() && bytes[index] == byte
}

/// What a word is, of which so many bytes were seen, where it ends here.
fn ended_word(word: Keyword, seen: u8) -> Field
    ensures { 1 ≤ seen → seen ≤ length (letters word) → IsField result (take seen (letters word)) }
{
    if usize::from(seen) == word.bytes().len() {
        Field::Word(word)
    } else {
        Field::Other
    }
}

/// The field of this one byte.
fn started(byte: u8) -> FieldInHand
    ensures { IsFieldInHand result (byte ∷ []) }
{
    match byte {
        b'+' => FieldInHand::Plus,
        b'-' => FieldInHand::Word(Keyword::Separator, 1),
        b's' => FieldInHand::Word(Keyword::Scale, 1),
        _ => match digit(byte) {
            Some(size) => FieldInHand::Digits(Sign::Absent, size),
            None => FieldInHand::Other,
        },
    }
}

/// The field of a word's first bytes, with one more.
fn with_word(word: Keyword, seen: u8, byte: u8) -> FieldInHand
    ensures { 1 ≤ seen → seen ≤ length (letters word) → IsFieldInHand result (take seen (letters word) ++ byte ∷ []) }
{
    if is_next(word, seen, byte) {
        return FieldInHand::Word(word, seen + 1);
    }
    // A dash may be the minus of a number.
    match word {
        Keyword::Separator if seen == 1 => match digit(byte) {
            Some(size) => FieldInHand::Digits(Sign::Minus, size),
            None => FieldInHand::Other,
        },
        _ => FieldInHand::Other,
    }
}

impl FieldInHand {
    /// The field with one more byte behind it.
    pub(crate) fn with(self, byte: u8) -> FieldInHand
        ensures { (bytes : List ℕ) → IsFieldInHand self bytes → IsFieldInHand result (bytes ++ byte ∷ []) }
    {
        match self {
            FieldInHand::Empty => started(byte),
            FieldInHand::Plus => match digit(byte) {
                Some(digit) => FieldInHand::Digits(Sign::Plus, digit),
                None => FieldInHand::Other,
            },
            FieldInHand::Digits(sign, size) => match digit(byte) {
                Some(digit) => FieldInHand::Digits(sign, with_digit(size, digit)),
                None => FieldInHand::Other,
            },
            FieldInHand::Word(word, seen) => with_word(word, seen, byte),
            FieldInHand::Other => FieldInHand::Other,
        }
    }

    /// The field with the digits behind it that a text begins with, where it has digits already, and what stands behind them.
    pub(crate) fn with_digits(self, text: &[u8]) -> (FieldInHand, &[u8])
        ensures { AddsDigits IsFieldInHand self result.0 text.now result.1.now }
    {
        match self {
            FieldInHand::Digits(sign, size) => {
                let (size, rest) = cut_digits(LIMIT, size.min(FAR), text);
                (FieldInHand::Digits(sign, size), rest)
            }
            field => (field, text),
        }
    }

    /// What the field is, where it ends here.
    pub(crate) fn end(self) -> Field
        ensures { (bytes : List ℕ) → IsFieldInHand self bytes → IsField result bytes }
    {
        match self {
            FieldInHand::Digits(sign, size) => Field::Number(sign, size),
            FieldInHand::Word(word, seen) => ended_word(word, seen),
            _ => Field::Other,
        }
    }
}
