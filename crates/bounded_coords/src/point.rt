//! Points whose coordinates are in bounds.
ghost use Rattle.std.specs.Prelude.{◌≡◌, ◌↔◌, IsSome, IfSome};
ghost use Rattle.bounds_model.specs.Numbers.{IsWithin};
ghost use Rattle.bounds_model.specs.Plane.{IsInPlane, plane_limit};
ghost use Rattle.bounds_model.specs.Space.{IsInSpace, space_limit};

use std::marker::Model;

/// A point of the plane, each coordinate from -200000 to 200000. Points are ordered by x, then y.
#[derive(Clone, Copy, Debug, PartialEq, Eq, PartialOrd, Ord)]
pub struct Point2 {
    x: i32,
    y: i32,
}

impl Model for Point2 {
    ghost use Rattle.bounds_model.specs.Numbers.{IsWithin};
    ghost use Rattle.bounds_model.specs.Plane.{PlanePoint, plane_limit};

    ghost Value = { PlanePoint };

    ghost view = { λ p. record { x = p.x; y = p.y } };

    ghost invariant = { λ p. IsWithin plane_limit p.x × IsWithin plane_limit p.y };

    ghost inverse = { λ v. record { x = v.x; y = v.y } };
}

const PLANE_LIMIT: i64 = 200_000;

impl Point2 {
    /// The point with these coordinates, or None where one of them is out of bounds.
    pub fn new(x: i64, y: i64) -> Option<Point2>
        ensures bounds { IsSome result ↔ IsInPlane (record { x = x; y = y }) }
        ensures point { IfSome result (λ p. p ≡ record { x = x; y = y }) }
    {
        if x < -PLANE_LIMIT || x > PLANE_LIMIT || y < -PLANE_LIMIT || y > PLANE_LIMIT {
            return None;
        }
        Some(Point2 {
            x: x as i32,
            y: y as i32,
        })
    }

    /// The first coordinate.
    pub fn x(&self) -> i32
        ensures value { result ≡ self.now.x }
        ensures bounds { IsWithin plane_limit result }
    {
        self.x
    }

    /// The second coordinate.
    pub fn y(&self) -> i32
        ensures value { result ≡ self.now.y }
        ensures bounds { IsWithin plane_limit result }
    {
        self.y
    }
}

/// A point of space, each coordinate from -8000 to 8000. Points are ordered by x, then y, then z.
#[derive(Clone, Copy, Debug, PartialEq, Eq, PartialOrd, Ord)]
pub struct Point3 {
    x: i32,
    y: i32,
    z: i32,
}

impl Model for Point3 {
    ghost use Rattle.bounds_model.specs.Numbers.{IsWithin};
    ghost use Rattle.bounds_model.specs.Space.{SpacePoint, space_limit};

    ghost Value = { SpacePoint };

    ghost view = { λ p. record { x = p.x; y = p.y; z = p.z } };

    ghost invariant = { λ p. IsWithin space_limit p.x × IsWithin space_limit p.y × IsWithin space_limit p.z };

    ghost inverse = { λ v. record { x = v.x; y = v.y; z = v.z } };
}

const SPACE_LIMIT: i64 = 8_000;

impl Point3 {
    /// The point with these coordinates, or None where one of them is out of bounds.
    pub fn new(x: i64, y: i64, z: i64) -> Option<Point3>
        ensures bounds { IsSome result ↔ IsInSpace (record { x = x; y = y; z = z }) }
        ensures point { IfSome result (λ p. p ≡ record { x = x; y = y; z = z }) }
    {
        if x < -SPACE_LIMIT || x > SPACE_LIMIT || y < -SPACE_LIMIT || y > SPACE_LIMIT {
            return None;
        }
        if z < -SPACE_LIMIT || z > SPACE_LIMIT {
            return None;
        }
        Some(Point3 {
            x: x as i32,
            y: y as i32,
            z: z as i32,
        })
    }

    /// The first coordinate.
    pub fn x(&self) -> i32
        ensures value { result ≡ self.now.x }
        ensures bounds { IsWithin space_limit result }
    {
        self.x
    }

    /// The second coordinate.
    pub fn y(&self) -> i32
        ensures value { result ≡ self.now.y }
        ensures bounds { IsWithin space_limit result }
    {
        self.y
    }

    /// The third coordinate.
    pub fn z(&self) -> i32
        ensures value { result ≡ self.now.z }
        ensures bounds { IsWithin space_limit result }
    {
        self.z
    }
}
