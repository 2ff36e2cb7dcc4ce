//! Digits and signs.
ghost use Rattle.std.specs.Prelude.{◌≡◌, ◌≤◌, IfSome};
ghost use Rattle.std.specs.Option.{option_map};
ghost use Rattle.bounds_model.specs.Plane.{plane_limit};
ghost use Rattle.bounds_model.specs.PointText.{natural};
ghost use Rattle.point_text.specs.Clamps.{clamped_size};
ghost use Rattle.point_text.specs.Fields.{signed};

use byte_tools::cut_digits;

/// The greatest magnitude that a coordinate of a point may have.
pub(crate) const LIMIT: u32 = 200_000;

/// A magnitude past the limit. A greater one is read as this one.
pub(crate) const FAR: u32 = LIMIT + 1;

/// What stands before the digits of a number.
#[derive(Clone, Copy, Debug, PartialEq, Eq)]
pub(crate) enum Sign {
    /// Nothing.
    Absent,
    /// `+`.
    Plus,
    /// `-`.
    Minus,
}

impl Sign {
    /// The number of this magnitude with the sign.
    pub(crate) fn signed(self, size: u32) -> i64
        ensures { result ≡ signed self size }
    {
        match self {
            Sign::Minus => -i64::from(size),
            _ => i64::from(size),
        }
    }
}

/// The number that these bytes write in decimal digits, or `FAR` where it is greater. None where a byte is no digit, or there
/// is none.
pub(crate) fn digits_size(digits: &[u8]) -> Option<u32>
    ensures value { result ≡ option_map clamped_size (natural digits.now) }
{
    let (size, rest) = cut_digits(LIMIT, 0, digits);
    if digits.is_empty() || !rest.is_empty() {
        return None;
    }
    Some(size)
}
