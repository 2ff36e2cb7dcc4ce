//! Points of the plane and of space as vectors.
ghost use Rattle.std.specs.Prelude.{◌≡◌};
ghost use Rattle.bounds_model.specs.Space.{SpacePoint};
ghost use Rattle.kernel_laws.specs.Vectors.{vector_of};
ghost use Rattle.kernel_laws.specs.Limits.{IsVectorWithin};

use bounded_coords::{Point2, Point3};
use kernel_laws::Vector;

/// A point of the plane or of space.
pub(crate) trait Place: Copy {
    ghost place: { Self → SpacePoint };

    /// From the origin to the point. In the plane the height is 0.
    fn vector(&self) -> Vector
        ensures value { vector_of result ≡ place self.now }
        ensures within { IsVectorWithin 200000 (vector_of result) };
}

impl Place for Point2 {
    ghost use Rattle.bounds_model.specs.Space.{flat};

    ghost place = { flat };

    fn vector(&self) -> Vector {
        Vector {
            x: self.x() as i64,
            y: self.y() as i64,
            z: 0,
        }
    }
}

impl Place for Point3 {
    ghost place = { λ p. p };

    fn vector(&self) -> Vector {
        Vector {
            x: self.x() as i64,
            y: self.y() as i64,
            z: self.z() as i64,
        }
    }
}
