//! A line of a text, read byte by byte.
ghost use Rattle.std.specs.Prelude.{◌≡◌, List, ℕ, [], ◌∷◌, ◌++◌, false};
ghost use Rattle.std.specs.List.{All};
ghost use Rattle.bounds_model.specs.PointText.{is_blank, is_comment_sign, content, fields_of};
ghost use Rattle.point_text.specs.Fields.{AreFields};
ghost use Rattle.point_text.specs.InHand.{IsContentInHand, IsLineInHand, AddsDigits};

use crate::field_in_hand::FieldInHand;
use crate::fields::Fields;

/// The bytes so far of what counts of a line: its whole fields, and the field at its end.
#[derive(Clone, Copy)]
pub(crate) struct ContentInHand {
    fields: Fields,
    field: FieldInHand,
}

impl ContentInHand {
    /// No byte.
    fn new() -> ContentInHand
        ensures { IsContentInHand result [] }
    {
        ContentInHand {
            fields: Fields::Empty,
            field: FieldInHand::Empty,
        }
    }

    /// What the fields come to, where they end here.
    fn end(self) -> Fields
        ensures { (bytes : List ℕ) → IsContentInHand self bytes → AreFields result (fields_of bytes) }
    {
        match self.field {
            FieldInHand::Empty => self.fields,
            field => self.fields.with(field.end()),
        }
    }

    /// The content with one more byte behind it.
    fn with(self, byte: u8) -> ContentInHand
        ensures { (bytes : List ℕ) → IsContentInHand self bytes → IsContentInHand result (bytes ++ byte ∷ []) }
    {
        if byte == b' ' || byte == b'\t' {
            ContentInHand {
                fields: self.end(),
                field: FieldInHand::Empty,
            }
        } else {
            ContentInHand {
                fields: self.fields,
                field: self.field.with(byte),
            }
        }
    }

    /// The content with the digits behind it that a text begins with, where it ends in digits, and what stands behind them.
    fn with_digits(self, text: &[u8]) -> (ContentInHand, &[u8])
        ensures { AddsDigits IsContentInHand self result.0 text.now result.1.now }
    {
        let (field, rest) = self.field.with_digits(text);
        let content = ContentInHand {
            fields: self.fields,
            field,
        };
        (content, rest)
    }
}

/// The bytes so far of a line.
#[derive(Clone, Copy)]
pub(crate) enum LineInHand {
    /// They all count.
    Open(ContentInHand),
    /// A carriage return is the last of them, which counts only where another byte follows.
    Returned(ContentInHand),
    /// They and all bytes to come end in a comment.
    Commented(ContentInHand),
}

/// The line of this content and one byte more.
fn opened(content: ContentInHand, byte: u8) -> LineInHand
    ensures { (bytes : List ℕ) → All (λ b. is_comment_sign b ≡ false) bytes → IsContentInHand content bytes
        → IsLineInHand result (bytes ++ byte ∷ []) }
{
    match byte {
        b'#' => LineInHand::Commented(content),
        b'\r' => LineInHand::Returned(content),
        _ => LineInHand::Open(content.with(byte)),
    }
}

impl LineInHand {
    /// No byte.
    pub(crate) fn new() -> LineInHand
        ensures { IsLineInHand result [] }
    {
        LineInHand::Open(ContentInHand::new())
    }

    /// The line with one more byte behind it.
    fn with_byte(self, byte: u8) -> LineInHand
        ensures { (bytes : List ℕ) → IsLineInHand self bytes → IsLineInHand result (bytes ++ byte ∷ []) }
    {
        match self {
            LineInHand::Open(content) => opened(content, byte),
            LineInHand::Returned(content) => opened(content.with(b'\r'), byte),
            LineInHand::Commented(content) => LineInHand::Commented(content),
        }
    }

    /// The line with the digits behind it that a text begins with, where it ends in digits, and what stands behind them.
    fn with_digits(self, text: &[u8]) -> (LineInHand, &[u8])
        ensures { AddsDigits IsLineInHand self result.0 text.now result.1.now }
    {
        match self {
            LineInHand::Open(content) => {
                let (content, rest) = content.with_digits(text);
                (LineInHand::Open(content), rest)
            }
            line => (line, text),
        }
    }

    /// The line with these bytes behind it.
    pub(crate) fn with(self, part: &[u8]) -> LineInHand
        ensures { (bytes : List ℕ) → IsLineInHand self bytes → IsLineInHand result (bytes ++ part.now) }
    {
        let mut line = self;
        let mut rest = part;
        'bytes: while let [byte, behind @ ..] = rest {
            if let LineInHand::Commented(content) = line {
                return LineInHand::Commented(content);
            }
            // A number may be as long as its text, so its digits are read in one go.
            (line, rest) = line.with_byte(*byte).with_digits(behind);
        }
        line
    }

    /// What the fields of the line come to, where it ends here.
    pub(crate) fn end(self) -> Fields
        ensures { (bytes : List ℕ) → IsLineInHand self bytes → AreFields result (fields_of (content bytes)) }
    {
        match self {
            LineInHand::Open(content) => content.end(),
            LineInHand::Returned(content) => content.end(),
            LineInHand::Commented(content) => content.end(),
        }
    }
}
