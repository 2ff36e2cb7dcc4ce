//! A box with sides along the axes.
ghost use Rattle.std.specs.Prelude.{◌≡◌, ◌↔◌, IsSome, IfSome};
ghost use Rattle.bounds_model.specs.Numbers.{IsWithin};
ghost use Rattle.bounds_model.specs.Plane.{plane_limit};
ghost use Rattle.bounds_model.specs.EmptyRectangle.{IsFrame};

use std::marker::Model;

/// A box with sides along the axes and an inside. Its sides lie from -200000 to 200000.
#[derive(Clone, Copy, Debug, PartialEq, Eq)]
pub struct Frame {
    left: i32,
    bottom: i32,
    right: i32,
    top: i32,
}

impl Model for Frame {
    ghost use Rattle.bounds_model.specs.EmptyRectangle.{Box, IsFrame};

    ghost Value = { Box };

    ghost view = { λ f. record { left = f.left; bottom = f.bottom; right = f.right; top = f.top } };

    ghost invariant = { λ f. IsFrame (record { left = f.left; bottom = f.bottom; right = f.right; top = f.top }) };

    ghost inverse = { λ v. record { left = v.left; bottom = v.bottom; right = v.right; top = v.top } };
}

const LIMIT: i64 = 200_000;

// The number as a coordinate, or None where it is out of bounds.
fn coordinate(v: i64) -> Option<i32>
    ensures bounds { IsSome result ↔ IsWithin plane_limit v }
    ensures value { IfSome result (λ c. c ≡ v) }
{
    if v < -LIMIT || v > LIMIT {
        return None;
    }
    Some(v as i32)
}

impl Frame {
    /// The box from `l` to `r` in x and from `b` to `t` in y, or None where a number is out of bounds or the box has no inside.
    pub fn new(l: i64, b: i64, r: i64, t: i64) -> Option<Frame>
        ensures bounds { IsSome result ↔ IsFrame (record { left = l; bottom = b; right = r; top = t }) }
        ensures frame { IfSome result (λ f. f ≡ record { left = l; bottom = b; right = r; top = t }) }
    {
        let left = coordinate(l)?;
        let bottom = coordinate(b)?;
        let right = coordinate(r)?;
        let top = coordinate(t)?;
        if left >= right || bottom >= top {
            return None;
        }
        Some(Frame {
            left,
            bottom,
            right,
            top,
        })
    }

    /// The x of the left side.
    pub fn l(&self) -> i32
        ensures value { result ≡ self.now.left }
        ensures bounds { IsWithin plane_limit result }
    {
        self.left
    }

    /// The y of the bottom side.
    pub fn b(&self) -> i32
        ensures value { result ≡ self.now.bottom }
        ensures bounds { IsWithin plane_limit result }
    {
        self.bottom
    }

    /// The x of the right side.
    pub fn r(&self) -> i32
        ensures value { result ≡ self.now.right }
        ensures bounds { IsWithin plane_limit result }
    {
        self.right
    }

    /// The y of the top side.
    pub fn t(&self) -> i32
        ensures value { result ≡ self.now.top }
        ensures bounds { IsWithin plane_limit result }
    {
        self.top
    }
}
