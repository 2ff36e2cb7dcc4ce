//! Points of the plane whose coordinates are fractions over one denominator.
ghost use Rattle.std.specs.Prelude.{◌≡◌, ◌↔◌, ◌≤ℤ◌, pos, IsTrue};
ghost use Rattle.bounds_model.specs.Space.{SamePlace, flat_ratio};
ghost use Rattle.bounds_model.specs.Ranges.{IsNumber, IsPlaneRatio};

use crate::divisors::{gcd, quotient};
use std::marker::Model;

/// The point (x/w, y/w) of the plane. w is at least 1, no number but 1 divides all three, and no magnitude is above 2^126.
#[derive(Clone, Copy, Debug, PartialEq, Eq)]
pub struct Homog2 {
    x: i128,
    y: i128,
    w: i128,
}

impl Model for Homog2 {
    ghost use Rattle.bounds_model.specs.Plane.{PlaneRatio};
    ghost use Rattle.bounds_model.specs.Ranges.{IsPlaneRatio};

    ghost Value = { PlaneRatio };

    ghost view = { λ p. record { x = p.x; y = p.y; w = p.w } };

    ghost invariant = { λ p. IsPlaneRatio (record { x = p.x; y = p.y; w = p.w }) };

    ghost inverse = { λ v. record { x = v.x; y = v.y; w = v.w } };
}

impl Default for Homog2 {
    ghost use Rattle.std.specs.Prelude.{◌≡◌, pos};

    ghost is_default = { λ p. p ≡ record { x = pos 0; y = pos 0; w = pos 1 } };

    /// The origin.
    fn default() -> Self {
        Homog2 { x: 0, y: 0, w: 1 }
    }
}

impl Homog2 {
    /// The point (x/w, y/w). Numbers in lowest terms are kept.
    pub fn new(x: i128, y: i128, w: i128) -> Homog2
        requires x { IsNumber x }
        requires y { IsNumber y }
        requires w { IsNumber w }
        requires some { pos 1 ≤ℤ w }
        ensures place { SamePlace (flat_ratio result) (flat_ratio (record { x = x; y = y; w = w })) }
        ensures lowest { IsPlaneRatio result }
        ensures kept { IsPlaneRatio (record { x = x; y = y; w = w }) → result ≡ record { x = x; y = y; w = w } }
    {
        let divisor = gcd(x.unsigned_abs(), gcd(y.unsigned_abs(), w.unsigned_abs()));
        Homog2 {
            x: quotient(x, divisor),
            y: quotient(y, divisor),
            w: quotient(w, divisor),
        }
    }

    /// Whether the point is (x/w, y/w).
    pub fn is_at(&self, x: i128, y: i128, w: i128) -> bool
        requires x { IsNumber x }
        requires y { IsNumber y }
        requires w { IsNumber w }
        requires some { pos 1 ≤ℤ w }
        ensures place { IsTrue result ↔ SamePlace (flat_ratio self.now) (flat_ratio (record { x = x; y = y; w = w })) }
        ensures lowest { IsPlaneRatio self.now }
    {
        let place = Homog2::new(x, y, w);
        self.w() == place.w() && *self == place
    }

    /// The numerator of the first coordinate.
    pub fn x(&self) -> i128
        ensures value { result ≡ self.now.x }
        ensures lowest { IsPlaneRatio self.now }
    {
        self.x
    }

    /// The numerator of the second coordinate.
    pub fn y(&self) -> i128
        ensures value { result ≡ self.now.y }
        ensures lowest { IsPlaneRatio self.now }
    {
        self.y
    }

    /// The denominator.
    pub fn w(&self) -> i128
        ensures value { result ≡ self.now.w }
        ensures lowest { IsPlaneRatio self.now }
    {
        self.w
    }
}
