//! Short lists of numbers, and weights in lowest terms.
ghost use Rattle.std.specs.Prelude.{◌≡◌, ◌∷◌, [], ◌^◌, ◌<ℤ◌, ◌-ℤ◌, pos, length, ◌≤◌, All};
ghost use Rattle.integers.specs.Size.{Size};
ghost use Rattle.integers.specs.Total.{total};
ghost use Rattle.kernel_laws.specs.Solutions.{Reduces};

use arrayvec::ArrayVec;
use exact_fractions::{gcd, quotient};

/// One number in a list.
pub(crate) fn of_one(a: i128) -> ArrayVec<i128, 5>
    ensures { result.items ≡ a ∷ [] }
{
    let mut numbers = ArrayVec::new();
    numbers.push(a);
    numbers
}

/// Two numbers in a list.
pub(crate) fn of_two(a: i128, b: i128) -> ArrayVec<i128, 5>
    ensures { result.items ≡ a ∷ b ∷ [] }
{
    let mut numbers = of_one(a);
    numbers.push(b);
    numbers
}

/// Three numbers in a list.
pub(crate) fn of_three(a: i128, b: i128, c: i128) -> ArrayVec<i128, 5>
    ensures { result.items ≡ a ∷ b ∷ c ∷ [] }
{
    let mut numbers = of_two(a, b);
    numbers.push(c);
    numbers
}

/// Four numbers in a list.
pub(crate) fn of_four(a: i128, b: i128, c: i128, d: i128) -> ArrayVec<i128, 5>
    ensures { result.items ≡ a ∷ b ∷ c ∷ d ∷ [] }
{
    let mut numbers = of_three(a, b, c);
    numbers.push(d);
    numbers
}

/// Five numbers in a list.
pub(crate) fn of_five(a: i128, b: i128, c: i128, d: i128, e: i128) -> ArrayVec<i128, 5>
    ensures { result.items ≡ a ∷ b ∷ c ∷ d ∷ e ∷ [] }
{
    let mut numbers = of_four(a, b, c, d);
    numbers.push(e);
    numbers
}

/// The numbers over their greatest common divisor.
pub(crate) fn lowest(whole: &[i128]) -> ArrayVec<i128, 5>
    requires few { length whole.now ≤ 5 }
    requires sizes { All (Size (2 ^ 124)) whole.now }
    requires positive { pos 0 <ℤ total (λ w. w) whole.now }
    ensures { Reduces whole.now result.items }
{
    let mut divisor = 0;
    'divide: for n in whole {
        divisor = gcd(divisor, n.unsigned_abs());
    }
    let mut parts = ArrayVec::new();
    'fill: for n in whole {
        parts.push(quotient(*n, divisor));
    }
    parts
}

/// The weights in lowest terms, where all but the first are given, and the sum of all.
pub(crate) fn weights_of_two(total: i128, p: i128) -> ArrayVec<i128, 5>
    requires total { Size (2 ^ 120) total }
    requires p { Size (2 ^ 120) p }
    requires positive { pos 0 <ℤ total }
    ensures { Reduces ((total -ℤ p) ∷ p ∷ []) result.items }
{
    lowest(&[total - p, p])
}

/// The weights in lowest terms, where all but the first are given, and the sum of all.
pub(crate) fn weights_of_three(total: i128, p: i128, q: i128) -> ArrayVec<i128, 5>
    requires total { Size (2 ^ 120) total }
    requires p { Size (2 ^ 120) p }
    requires q { Size (2 ^ 120) q }
    requires positive { pos 0 <ℤ total }
    ensures { Reduces ((total -ℤ p -ℤ q) ∷ p ∷ q ∷ []) result.items }
{
    lowest(&[total - p - q, p, q])
}

/// The weights in lowest terms, where all but the first are given, and the sum of all.
pub(crate) fn weights_of_four(total: i128, p: i128, q: i128, s: i128) -> ArrayVec<i128, 5>
    requires total { Size (2 ^ 120) total }
    requires p { Size (2 ^ 120) p }
    requires q { Size (2 ^ 120) q }
    requires s { Size (2 ^ 120) s }
    requires positive { pos 0 <ℤ total }
    ensures { Reduces ((total -ℤ p -ℤ q -ℤ s) ∷ p ∷ q ∷ s ∷ []) result.items }
{
    lowest(&[total - p - q - s, p, q, s])
}
