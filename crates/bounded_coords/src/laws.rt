//! The order of points, as laws: the derived comparisons go by the coordinates in turn.
ghost use Rattle.std.specs.Prelude.{◌↔◌, IsTrue};
ghost use Rattle.bounds_model.specs.Plane.{IsBefore};
ghost use Rattle.bounded_coords.specs.Orders.{IsBeforeInSpace};

use crate::{Point2, Point3};

/// Whether `a` is `b` or before it: by x, then by y.
pub fn is_before(a: &Point2, b: &Point2) -> bool
    ensures { IsTrue result ↔ IsBefore a.now b.now }
{
    a <= b
}

/// Whether `a` is `b` or before it: by x, then by y, then by z.
pub fn is_before_in_space(a: &Point3, b: &Point3) -> bool
    ensures { IsTrue result ↔ IsBeforeInSpace a.now b.now }
{
    a <= b
}
