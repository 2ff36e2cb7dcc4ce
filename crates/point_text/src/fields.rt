//! What the fields of a line or of a record come to.
ghost use Rattle.std.specs.Prelude.{◌≡◌, ℕ, List, [], ◌∷◌, ◌++◌, codes, false, None, MatchOption};
ghost use Rattle.std.specs.Str.{bytes_eq};
ghost use Rattle.bounds_model.specs.PointText.{number};
ghost use Rattle.point_text.specs.declared.number.Sign.TheVariants as signs;
ghost use Rattle.point_text.specs.Fields.{IsField, AreFields, Write, sign_bytes, letters};
ghost use Rattle.point_text.specs.Lines.{BeginsWithNoSign};

use crate::number::{Sign, digits_size};

/// A word that a line begins with which is no point.
#[derive(Clone, Copy, Debug, PartialEq, Eq)]
pub(crate) enum Keyword {
    /// `---`, which ends a set.
    Separator,
    /// `scale`, before the number of units.
    Scale,
}

impl Keyword {
    /// The bytes of the word.
    pub(crate) fn bytes(self) -> &'static [u8]
        ensures { result.now ≡ letters self }
    {
        match self {
            Keyword::Separator => b"---",
            Keyword::Scale => b"scale",
        }
    }
}

/// What a whole field is.
#[derive(Clone, Copy)]
pub(crate) enum Field {
    /// Digits of this number, with or without a sign before them. A number past every bound is read as the first one past all.
    Number(Sign, u32),
    /// A word.
    Word(Keyword),
    /// Something else.
    Other,
}

/// What whole fields come to, in their order.
#[derive(Clone, Copy)]
pub(crate) enum Fields {
    /// There are none.
    Empty,
    /// This one word.
    Word(Keyword),
    /// `scale` and this number without a sign.
    Scale(u32),
    /// One number.
    One(i64),
    /// Two numbers.
    Two(i64, i64),
    /// Three numbers.
    Three(i64, i64, i64),
    /// Something else, which stays so whatever fields follow.
    Other,
}

/// The sign that a field begins with, and what stands behind it.
fn parted_sign(bytes: &[u8]) -> (Sign, &[u8])
    ensures parts { bytes.now ≡ sign_bytes result.0 ++ result.1.now }
    ensures plain { result.0 ≡ signs.Absent → BeginsWithNoSign result.1.now }
{
    match bytes {
        [b'-', digits @ ..] => (Sign::Minus, digits),
        [b'+', digits @ ..] => (Sign::Plus, digits),
        digits => (Sign::Absent, digits),
    }
}

/// The word of these bytes, or None where they are none.
fn read_word(bytes: &[u8]) -> Option<Keyword>
    ensures { MatchOption result ((bytes_eq bytes.now (codes "---") ≡ false) × (bytes_eq bytes.now (codes "scale") ≡ false)) (λ word. bytes.now ≡ letters word) }
{
    if bytes == b"---".as_slice() {
        return Some(Keyword::Separator);
    }
    if bytes == b"scale".as_slice() {
        return Some(Keyword::Scale);
    }
    None
}

/// The sign and the number that these bytes write, or None where they write none.
fn signed_digits(bytes: &[u8]) -> Option<(Sign, u32)>
    ensures { MatchOption result (number bytes.now ≡ None)
        (λ parts. (digits : List ℕ) × (bytes.now ≡ sign_bytes parts.0 ++ digits) × Write digits parts.1) }
{
    let (sign, digits) = parted_sign(bytes);
    match digits_size(digits) {
        Some(size) => Some((sign, size)),
        None => None,
    }
}

/// What a field of these bytes is.
pub(crate) fn read_field(bytes: &[u8]) -> Field
    ensures { IsField result bytes.now }
{
    match read_word(bytes) {
        Some(word) => Field::Word(word),
        None => match signed_digits(bytes) {
            Some((sign, size)) => Field::Number(sign, size),
            None => Field::Other,
        },
    }
}

/// What a word and a field behind it come to: a scale is written without a sign.
fn behind_word(word: Keyword, field: Field) -> Fields
    ensures { (next : List ℕ) → IsField field next → AreFields result (letters word ∷ next ∷ []) }
{
    match word {
        Keyword::Separator => Fields::Other,
        Keyword::Scale => match field {
            Field::Number(Sign::Absent, size) => Fields::Scale(size),
            _ => Fields::Other,
        },
    }
}

impl Fields {
    /// The fields with one more behind them.
    pub(crate) fn with(self, field: Field) -> Fields
        ensures { (line : List (List ℕ)) (next : List ℕ) → AreFields self line → IsField field next → AreFields result (line ++ next ∷ []) }
    {
        match self {
            Fields::Empty => match field {
                Field::Number(sign, size) => Fields::One(sign.signed(size)),
                Field::Word(word) => Fields::Word(word),
                Field::Other => Fields::Other,
            },
            Fields::Word(word) => behind_word(word, field),
            Fields::One(x) => match field {
                Field::Number(sign, size) => Fields::Two(x, sign.signed(size)),
                _ => Fields::Other,
            },
            Fields::Two(x, y) => match field {
                Field::Number(sign, size) => Fields::Three(x, y, sign.signed(size)),
                _ => Fields::Other,
            },
            _ => Fields::Other,
        }
    }
}
