//! Fractions that are not below 0.
ghost use Rattle.std.specs.Prelude.{◌≡◌, ◌^◌, ◌<◌, ◌≤◌, ◌*ℤ◌, ◌≤ℤ◌, ◌<ℤ◌, ◌↔◌, pos};
ghost use Rattle.std.specs.Prelude.{IsTrue, IsNone, IfSome};
ghost use Rattle.bounds_model.specs.Fractions.{Fraction, SameValue, lowest_form, multiple, over};
ghost use Rattle.bounds_model.specs.Ranges.{IsFraction, number_limit};
ghost use Rattle.exact_fractions.specs.Factors.{factor_limit};
ghost use Rattle.exact_fractions.specs.Order.{IsBelow};

use crate::gcd;
use std::cmp::Ordering;
use std::marker::Model;

/// The greatest numerator and the greatest denominator.
const LIMIT: u128 = 1 << 126;

/// A fraction in lowest terms. Both numbers are at most 2^126, and 0 is 0/1.
#[derive(Clone, Copy, Debug, PartialEq, Eq)]
pub struct Frac {
    num: u128,
    den: u128,
}

impl Model for Frac {
    ghost use Rattle.std.specs.Prelude.{pos, nat_abs};
    ghost use Rattle.bounds_model.specs.Fractions.{Fraction};
    ghost use Rattle.bounds_model.specs.Ranges.{IsFraction};

    ghost Value = { Fraction };

    ghost view = { λ f. record { n = pos f.num; d = pos f.den } };

    ghost invariant = { λ f. IsFraction (record { n = pos f.num; d = pos f.den }) };

    ghost inverse = { λ v. record { num = nat_abs v.n; den = nat_abs v.d } };
}

impl Frac {
    /// The fraction n/d in lowest terms, which are n and d themselves where they are lowest.
    pub fn new(n: u128, d: u128) -> Frac
        requires some { 0 < d }
        requires numerator { n ≤ 2 ^ 126 }
        requires denominator { d ≤ 2 ^ 126 }
        ensures value { SameValue result (record { n = pos n; d = pos d }) }
        ensures lowest { IsFraction result }
        ensures numerator { result.n ≤ℤ pos n }
        ensures denominator { result.d ≤ℤ pos d }
        ensures kept { IsFraction (record { n = pos n; d = pos d }) → result ≡ record { n = pos n; d = pos d } }
    {
        let divisor = gcd(n, d);
        Frac {
            num: n / divisor,
            den: d / divisor,
        }
    }

    /// The numerator.
    pub fn num(&self) -> u128
        ensures value { pos result ≡ self.now.n }
        ensures limit { result ≤ 2 ^ 126 }
        ensures lowest { IsFraction self.now }
    {
        self.num
    }

    /// The denominator.
    pub fn den(&self) -> u128
        ensures value { pos result ≡ self.now.d }
        ensures some { 0 < result }
        ensures limit { result ≤ 2 ^ 126 }
        ensures lowest { IsFraction self.now }
    {
        self.den
    }

    /// Whether the fraction is n/d.
    pub fn is_ratio(&self, n: u128, d: u128) -> bool
        requires some { 0 < d }
        requires numerator { n ≤ 2 ^ 126 }
        requires denominator { d ≤ 2 ^ 126 }
        ensures value { IsTrue result ↔ SameValue self.now (record { n = pos n; d = pos d }) }
        ensures lowest { IsFraction self.now }
        ensures within { IsTrue result → (self.now.n ≤ℤ pos n) × (self.now.d ≤ℤ pos d) }
    {
        let ratio = Frac::new(n, d);
        self.num() == ratio.num() && self.den() == ratio.den()
    }

    /// The order of the values, where both cross products are below 2^127.
    pub fn cmp_small(&self, other: &Frac) -> Ordering
        requires this { (self.now.n *ℤ other.now.d) <ℤ pos (2 ^ 127) }
        requires other { (other.now.n *ℤ self.now.d) <ℤ pos (2 ^ 127) }
        ensures less { (result ≡ Ordering.Less) ↔ IsBelow self.now other.now }
        ensures equal { (result ≡ Ordering.Equal) ↔ SameValue self.now other.now }
        ensures greater { (result ≡ Ordering.Greater) ↔ IsBelow other.now self.now }
    {
        (self.num * other.den).cmp(&(other.num * self.den))
    }

    /// The fraction over k, in lowest terms.
    pub fn over(&self, k: u32) -> Frac
        requires some { 0 < k }
        requires most { k ≤ factor_limit }
        requires denominator { (lowest_form (over k self.now)).d ≤ℤ pos number_limit }
        ensures value { result ≡ lowest_form (over k self.now) }
        ensures lowest { IsFraction result }
    {
        let divisor = gcd(self.num, k as u128);
        Frac {
            num: self.num / divisor,
            den: self.den * (k as u128 / divisor),
        }
    }

    /// The fraction times k, in lowest terms, or None where its numerator is above 2^126.
    pub fn times(&self, k: u32) -> Option<Frac>
        requires some { 0 < k }
        requires most { k ≤ factor_limit }
        ensures value { IfSome result (λ f. f ≡ lowest_form (multiple k self.now)) }
        ensures lowest { IfSome result (λ f. IsFraction f) }
        ensures none { IsNone result ↔ (pos number_limit <ℤ (lowest_form (multiple k self.now)).n) }
    {
        let divisor = gcd(self.den, k as u128);
        let factor = k as u128 / divisor;
        if self.num > LIMIT / factor {
            return None;
        }
        Some(Frac {
            num: self.num * factor,
            den: self.den / divisor,
        })
    }
}
