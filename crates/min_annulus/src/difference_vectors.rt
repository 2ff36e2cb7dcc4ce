//! Difference vectors of two points, lifted by the difference of the squared lengths.
ghost use Rattle.std.specs.Prelude.{◌≡◌, ◌↔◌, ◌≤ℤ◌, ◌<ℤ◌, pos, IsTrue};
ghost use Rattle.bounds_model.specs.Plane.{squared_length as squared_length_of};
ghost use Rattle.min_annulus.specs.DifferenceVectors.{difference_of, IsDifference, side, cross as cross_of, dot as dot_of};

use bounded_coords::Point2;

/// The difference p - q of two points, with the difference |p|² - |q|² of their squared lengths as its lift.
#[derive(Clone, Copy)]
pub(crate) struct DifferenceVector {
    pub(crate) x: i64,
    pub(crate) y: i64,
    pub(crate) lift: i64,
}

impl DifferenceVector {
    /// From the second point to the first.
    pub(crate) fn between(p: &Point2, q: &Point2) -> DifferenceVector
        ensures value { result ≡ difference_of p.now q.now }
        ensures within { IsDifference result }
    {
        DifferenceVector {
            x: p.x() as i64 - q.x() as i64,
            y: p.y() as i64 - q.y() as i64,
            lift: squared_length(p) - squared_length(q),
        }
    }

    /// Whether the way to another difference has the target on its left. The target is the point (1/M, 1/M²) with M = 2^22, so close
    /// to the origin that a line that meets it goes through one difference alone.
    pub(crate) fn has_target_left(self, to: DifferenceVector) -> bool
        requires from { IsDifference self }
        requires to { IsDifference to }
        ensures { IsTrue result ↔ (pos 0 <ℤ side self to) }
    {
        let near = (self.y - to.y) * (1 << 22) + (to.x - self.x);
        self.cross(to) as i128 * (1 << 44) + near as i128 > 0
    }

    /// The cross product: twice the area of the triangle from the origin over this difference to another.
    pub(crate) fn cross(self, to: DifferenceVector) -> i64
        requires from { IsDifference self }
        requires to { IsDifference to }
        ensures { result ≡ cross_of self to }
    {
        self.x * to.y - self.y * to.x
    }

    /// The dot product, without the lifts.
    pub(crate) fn dot(self, to: DifferenceVector) -> i64
        requires from { IsDifference self }
        requires to { IsDifference to }
        ensures { result ≡ dot_of self to }
    {
        self.x * to.x + self.y * to.y
    }
}

/// A point's squared distance from the origin.
pub(crate) fn squared_length(p: &Point2) -> i64
    ensures value { result ≡ squared_length_of p.now }
    ensures low { pos 0 ≤ℤ result }
    ensures high { result ≤ℤ pos 80000000000 }
{
    let x = p.x() as i64;
    let y = p.y() as i64;
    x * x + y * y
}
