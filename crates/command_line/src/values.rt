//! Numbers, boxes and forms, as words write them.
ghost use Rattle.std.specs.Prelude.{◌≡◌, ◌≤◌, IfSome};
ghost use Rattle.bounds_model.specs.Numbers.{IsWithin};
ghost use Rattle.bounds_model.specs.Plane.{plane_limit};
ghost use Rattle.command_line.specs.Values as model;

use bounded_coords::Frame;
use byte_tools::{cut, natural_number, whole_number};
use point_text::Form;

/// A number from `low` to `high`, in digits that do not begin with 0 unless it is 0.
#[tactic(auto, unfolding(crate::specs::Values::number_within))]
pub(crate) fn number_within(low: u32, high: u32, word: &str) -> Option<u32>
    ensures number { result ≡ model.number_within low high word.now }
    ensures low { IfSome result (λ n. low ≤ n) }
    ensures high { IfSome result (λ n. n ≤ high) }
{
    let n = natural_number(word.as_bytes())?;
    if n < u128::from(low) || n > u128::from(high) {
        return None;
    }
    Some(n as u32)
}

/// The frame that four numbers, parted by single commas, make: its left, bottom, right and top.
pub(crate) fn frame_written(word: &str) -> Option<Frame>
    ensures { result ≡ model.frame_written word.now }
{
    let (l, rest) = cut(word.as_bytes(), b',');
    let (b, rest) = cut(rest, b',');
    let (r, t) = cut(rest, b',');
    let left = coordinate(l)?;
    let bottom = coordinate(b)?;
    let right = coordinate(r)?;
    let top = coordinate(t)?;
    frame_of(left, bottom, right, top)
}

/// The frame with these coordinates, if it has an inside.
fn frame_of(left: i64, bottom: i64, right: i64, top: i64) -> Option<Frame>
    requires left { IsWithin plane_limit left }
    requires bottom { IsWithin plane_limit bottom }
    requires right { IsWithin plane_limit right }
    requires top { IsWithin plane_limit top }
    ensures { result ≡ model.with_inside (record { left = left; bottom = bottom; right = right; top = top }) }
{
    Frame::new(left, bottom, right, top)
}

/// A whole number from -200000 to 200000, where -0 is none.
#[tactic(auto, unfolding(crate::specs::Values::coordinate))]
fn coordinate(word: &[u8]) -> Option<i64>
    ensures number { result ≡ model.coordinate word.now }
    ensures bounds { IfSome result (λ z. IsWithin plane_limit z) }
{
    let z = whole_number(word)?;
    if z.unsigned_abs() > 200_000 {
        return None;
    }
    Some(z as i64)
}

/// The form of point files that the word names.
#[tactic(auto, unfolding(crate::specs::Values::form_named))]
pub(crate) fn form_named(word: &str) -> Option<Form>
    ensures { result ≡ model.form_named word.now }
{
    match word {
        "text" => Some(Form::Text),
        "csv" => Some(Form::Csv),
        _ => None,
    }
}
