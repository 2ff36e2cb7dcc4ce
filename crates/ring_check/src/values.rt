//! The values of fractions.
ghost use Rattle.std.specs.Prelude.{◌↔◌, ◌^◌, ◌≤ℤ◌, pos, IsTrue};
ghost use Rattle.integers.specs.Size.{Size};
ghost use Rattle.ring_check.specs.Rings.{HasValue};

use exact_fractions::Frac;

/// Whether the fraction is n/d.
pub(crate) fn has_value(fraction: &Frac, n: i128, d: i128) -> bool
    requires numerator { Size (2 ^ 126) n }
    requires denominator { Size (2 ^ 126) d }
    requires some { pos 1 ≤ℤ d }
    ensures { IsTrue result ↔ HasValue fraction.now (record { n = n; d = d }) }
{
    if n < 0 {
        return false;
    }
    fraction.is_ratio(n as u128, d as u128)
}
