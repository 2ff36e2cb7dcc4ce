//! Fields cut off a line.
ghost use Rattle.std.specs.Prelude.{◌≡◌, ◌≢◌, true, false, ◌<◌, [], ◌∷◌, not, length, IfSome, MatchOption};
ghost use Rattle.std.specs.List.{position_from};
ghost use Rattle.std.specs.Str.Lines.{strip_carriage_return};
ghost use Rattle.bounds_model.specs.PointText.{is_blank, fields_of};
ghost use Rattle.point_text.specs.Lines.{uncommented, are_behind_field};

use byte_tools::{cut, parted};

/// The line without a carriage return at its end.
pub(crate) fn without_return(line: &[u8]) -> &[u8]
    ensures { result.now ≡ strip_carriage_return line.now }
{
    match line {
        [start @ .., b'\r'] => start,
        line => line,
    }
}

/// What stands before the first comment sign.
pub(crate) fn before_comment(line: &[u8]) -> &[u8]
    ensures { result.now ≡ uncommented line.now }
{
    cut(line, b'#').0
}

/// Whether a byte parts fields.
fn parts_fields(b: u8) -> bool
    ensures { result ≡ is_blank b }
{
    b == b' ' || b == b'\t'
}

/// Whether no field goes on with these bytes: there are none, or the first one is a blank or a comment sign.
pub(crate) fn ends_field(rest: &[u8]) -> bool
    ensures { result ≡ are_behind_field rest.now }
{
    match rest {
        [] => true,
        [b, ..] => parts_fields(*b) || *b == b'#',
    }
}

/// The index of the first byte that is no blank.
pub(crate) fn field_start(text: &[u8]) -> Option<usize>
    ensures index { result ≡ position_from (λ b. not (is_blank b)) 0 text.now }
    ensures within { IfSome result (λ i. i < length text.now) }
{
    text.iter().position(|b| !parts_fields(*b))
}

/// The index of the first blank.
fn field_end(text: &[u8]) -> Option<usize>
    ensures index { result ≡ position_from is_blank 0 text.now }
    ensures within { IfSome result (λ i. i < length text.now) }
{
    text.iter().position(|b| parts_fields(*b))
}

/// Whether a field stands before a comment.
pub(crate) fn has_field(line: &[u8]) -> bool
    ensures no { result ≡ false → fields_of (uncommented line.now) ≡ [] }
    ensures yes { result ≡ true → fields_of (uncommented line.now) ≢ [] }
{
    match field_start(line) {
        Some(start) => line[start] != b'#',
        None => false,
    }
}

/// The first field and what stands behind it, or None where there is no field.
pub(crate) fn next_field(text: &[u8]) -> Option<(&[u8], &[u8])>
    ensures { MatchOption result (fields_of text.now ≡ [])
        (λ parts. fields_of text.now ≡ parts.0.now ∷ fields_of parts.1.now) }
{
    let start = field_start(text)?;
    let text = &text[start..];
    Some(parted(text, field_end(text)))
}
