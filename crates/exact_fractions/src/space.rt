//! Points of space whose coordinates are fractions over one denominator.
ghost use Rattle.std.specs.Prelude.{◌≡◌, ◌≤ℤ◌, pos, ◌↔◌, IsTrue};
ghost use Rattle.bounds_model.specs.Space.{SamePlace};
ghost use Rattle.bounds_model.specs.Ranges.{IsNumber, IsSpaceRatio};

use crate::divisors::{gcd, quotient};
use std::marker::Model;

/// The point (x/w, y/w, z/w) of space. w is at least 1, no number but 1 divides all four, and no magnitude is above 2^126.
#[derive(Clone, Copy, Debug, PartialEq, Eq)]
pub struct Homog3 {
    x: i128,
    y: i128,
    z: i128,
    w: i128,
}

impl Model for Homog3 {
    ghost use Rattle.bounds_model.specs.Space.{SpaceRatio};
    ghost use Rattle.bounds_model.specs.Ranges.{IsSpaceRatio};

    ghost Value = { SpaceRatio };

    ghost view = { λ p. record { x = p.x; y = p.y; z = p.z; w = p.w } };

    ghost invariant = { λ p. IsSpaceRatio (record { x = p.x; y = p.y; z = p.z; w = p.w }) };

    ghost inverse = { λ v. record { x = v.x; y = v.y; z = v.z; w = v.w } };
}

impl Homog3 {
    /// The point (x/w, y/w, z/w). Numbers in lowest terms are kept.
    pub fn new(x: i128, y: i128, z: i128, w: i128) -> Homog3
        requires x { IsNumber x }
        requires y { IsNumber y }
        requires z { IsNumber z }
        requires w { IsNumber w }
        requires some { pos 1 ≤ℤ w }
        ensures place { SamePlace result (record { x = x; y = y; z = z; w = w }) }
        ensures lowest { IsSpaceRatio result }
        ensures kept { IsSpaceRatio (record { x = x; y = y; z = z; w = w }) → result ≡ record { x = x; y = y; z = z; w = w } }
    {
        let divisor = gcd(
            x.unsigned_abs(),
            gcd(y.unsigned_abs(), gcd(z.unsigned_abs(), w.unsigned_abs())),
        );
        Homog3 {
            x: quotient(x, divisor),
            y: quotient(y, divisor),
            z: quotient(z, divisor),
            w: quotient(w, divisor),
        }
    }

    /// Whether the point is (x/w, y/w, z/w).
    pub fn is_at(&self, x: i128, y: i128, z: i128, w: i128) -> bool
        requires x { IsNumber x }
        requires y { IsNumber y }
        requires z { IsNumber z }
        requires w { IsNumber w }
        requires some { pos 1 ≤ℤ w }
        ensures place { IsTrue result ↔ SamePlace self.now (record { x = x; y = y; z = z; w = w }) }
        ensures lowest { IsSpaceRatio self.now }
    {
        let place = Homog3::new(x, y, z, w);
        self.w() == place.w() && *self == place
    }

    /// The numerator of the first coordinate.
    pub fn x(&self) -> i128
        ensures value { result ≡ self.now.x }
        ensures lowest { IsSpaceRatio self.now }
    {
        self.x
    }

    /// The numerator of the second coordinate.
    pub fn y(&self) -> i128
        ensures value { result ≡ self.now.y }
        ensures lowest { IsSpaceRatio self.now }
    {
        self.y
    }

    /// The numerator of the third coordinate.
    pub fn z(&self) -> i128
        ensures value { result ≡ self.now.z }
        ensures lowest { IsSpaceRatio self.now }
    {
        self.z
    }

    /// The denominator.
    pub fn w(&self) -> i128
        ensures value { result ≡ self.now.w }
        ensures lowest { IsSpaceRatio self.now }
    {
        self.w
    }
}
