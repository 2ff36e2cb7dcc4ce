//! Linear forms on lifted points.
ghost use Rattle.std.specs.Prelude.{◌≡◌, ◌^◌, ◌+ℤ◌, ◌*ℤ◌, ◌≤◌, ◌≤ℤ◌, pos};
ghost use Rattle.integers.specs.Size.{Size};
ghost use Rattle.bounds_model.specs.Fractions.{SameValue};
ghost use Rattle.bounds_model.specs.Plane.{IsInPlane};
ghost use Rattle.bounds_model.specs.Ranges.{IsFraction, IsPlaneRatio};
ghost use Rattle.bounds_model.specs.Space.{SamePlace, flat_ratio};
ghost use Rattle.min_annulus.specs.DifferenceVectors.{IsDifference};
ghost use Rattle.min_annulus.specs.LinearForms.{IsLinearForm, level, rise, form_through, centre_of, squared_radius_of, order_form, across_form, middle_form};

use crate::difference_vectors::{DifferenceVector, squared_length};
use bounded_coords::Point2;
use exact_fractions::{Frac, Homog2};

/// The linear form w |p|² - (x, y).p on the lifted point (p, |p|²). Where w is above 0 it is w times the squared distance from the
/// centre (x/2w, y/2w), up to a term that is the same for all points. Where w is 0 it tells how far a point is along a direction.
#[derive(Clone, Copy)]
pub(crate) struct LinearForm {
    pub(crate) x: i64,
    pub(crate) y: i64,
    pub(crate) w: i64,
}

impl LinearForm {
    /// How far a point is to the right, and among points as far how far up: it orders points by x, then y.
    pub(crate) fn order() -> LinearForm
        ensures value { result ≡ order_form }
        ensures form { IsLinearForm result }
    {
        LinearForm {
            x: -(1 << 19),
            y: -1,
            w: 0,
        }
    }

    /// How far a point is to the left of a direction.
    pub(crate) fn across(e: DifferenceVector) -> LinearForm
        requires { IsDifference e }
        ensures value { result ≡ across_form e }
        ensures form { IsLinearForm result }
    {
        LinearForm {
            x: e.y,
            y: -e.x,
            w: 0,
        }
    }

    /// The form whose centre is the middle between two points.
    pub(crate) fn around_middle(a: &Point2, b: &Point2) -> LinearForm
        ensures value { result ≡ middle_form a.now b.now }
        ensures form { IsLinearForm result }
    {
        LinearForm {
            x: a.x() as i64 + b.x() as i64,
            y: a.y() as i64 + b.y() as i64,
            w: 1,
        }
    }

    /// The value at a point.
    pub(crate) fn at(self, p: &Point2) -> i128
        requires { IsLinearForm self }
        ensures value { result ≡ level self p.now }
        ensures inside { IsInPlane p.now }
        ensures size { Size (2 ^ 80) result }
    {
        let square = self.w as i128 * squared_length(p) as i128;
        square - (self.x as i128 * p.x() as i128 + self.y as i128 * p.y() as i128)
    }

    /// The value at a pair's first point less that at its second.
    pub(crate) fn over(self, d: DifferenceVector) -> i128
        requires form { IsLinearForm self }
        requires difference { IsDifference d }
        ensures { result ≡ rise self d }
    {
        let lift = self.w as i128 * d.lift as i128;
        lift - (self.x as i128 * d.x as i128 + self.y as i128 * d.y as i128)
    }

    /// The form with one value at three differences: the plane through them, over twice the area of the triangle.
    pub(crate) fn through(
        a: DifferenceVector,
        b: DifferenceVector,
        c: DifferenceVector,
    ) -> LinearForm
        requires a { IsDifference a }
        requires b { IsDifference b }
        requires c { IsDifference c }
        ensures value { result ≡ form_through a b c }
        ensures form { IsLinearForm result }
    {
        let (bx, by, bl) = (b.x - a.x, b.y - a.y, b.lift - a.lift);
        let (cx, cy, cl) = (c.x - a.x, c.y - a.y, c.lift - a.lift);
        LinearForm {
            x: bl * cy - cl * by,
            y: bx * cl - cx * bl,
            w: bx * cy - by * cx,
        }
    }

    /// The centre.
    pub(crate) fn center(self) -> Homog2
        requires form { IsLinearForm self }
        requires some { pos 1 ≤ℤ self.w }
        ensures place { SamePlace (flat_ratio result) (flat_ratio (centre_of self)) }
        ensures lowest { IsPlaneRatio result }
    {
        Homog2::new(self.x as i128, self.y as i128, 2 * self.w as i128)
    }

    /// A point's squared distance from the centre.
    pub(crate) fn squared_radius(self, p: &Point2) -> Frac
        requires form { IsLinearForm self }
        requires some { pos 1 ≤ℤ self.w }
        ensures value { SameValue result (squared_radius_of self p.now) }
        ensures lowest { IsFraction result }
    {
        let w = 2 * self.w;
        let x = w * p.x() as i64 - self.x;
        let y = w * p.y() as i64 - self.y;
        Frac::new(sum_of_squares(x, y), sum_of_squares(w, 0))
    }
}

/// The sum of two squares.
fn sum_of_squares(x: i64, y: i64) -> u128
    requires x { Size (2 ^ 61) x }
    requires y { Size (2 ^ 61) y }
    ensures value { pos result ≡ x *ℤ x +ℤ y *ℤ y }
    ensures limit { result ≤ 2 ^ 126 }
{
    (x as i128 * x as i128 + y as i128 * y as i128) as u128
}
