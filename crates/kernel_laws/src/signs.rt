//! On which side of a line, a plane or a circle a point lies.
ghost use Rattle.std.specs.Prelude.{◌≡◌, ◌*◌, ◌≤◌};
ghost use Rattle.bounds_model.specs.Plane.{turn};
ghost use Rattle.kernel_laws.specs.Vectors.{vector_of, sum_of};
ghost use Rattle.kernel_laws.specs.Limits.{IsVectorWithin, difference_limit, ball_limit};
ghost use Rattle.kernel_laws.specs.Signs.{sign_of, volume, slack_from_origin};

use crate::kernels::{Kernel, Plane, Space};
use crate::vectors::{Sum, Vector};
use bounded_coords::{Point2, Point3};

/// A number's sign.
#[derive(Clone, Copy, Debug, PartialEq, Eq)]
pub enum Sign {
    /// Below 0.
    Minus,
    /// 0.
    Zero,
    /// Above 0.
    Plus,
}

/// The sign of a number.
fn sign_of_number(n: i128) -> Sign
    ensures { result ≡ sign_of n }
{
    if n < 0 {
        Sign::Minus
    } else if n == 0 {
        Sign::Zero
    } else {
        Sign::Plus
    }
}

/// `Plus` where the way from a over b to c turns left, `Minus` where it turns right, `Zero` where the three are on a line.
pub fn orient2(a: &Point2, b: &Point2, c: &Point2) -> Sign
    ensures { result ≡ sign_of (turn a.now b.now c.now) }
{
    let u = Plane.diff(a, b);
    let v = Plane.diff(a, c);
    sign_of_number((u.x * v.y - u.y * v.x) as i128)
}

/// The orientation of a tetrahedron: the sign of the determinant of the differences from a, `Zero` where the four are on a plane.
pub fn orient3(a: &Point3, b: &Point3, c: &Point3, d: &Point3) -> Sign
    ensures { result ≡ sign_of (volume a.now b.now c.now d.now) }
{
    let u = Space.diff(a, b);
    let v = Space.diff(a, c);
    let w = Space.diff(a, d);
    let volume = u.x * (v.y * w.z - v.z * w.y) - u.y * (v.x * w.z - v.z * w.x)
        + u.z * (v.x * w.y - v.y * w.x);
    sign_of_number(volume as i128)
}

/// The circle and sphere test, for items with this weighted sum and total weight, all measured from one of them: the sign of
/// 2 x·sum - total |x|². `Minus` means outside, `Zero` on and `Plus` inside.
pub fn side<K: Kernel>(kernel: &K, sum: Sum, total: u128, x: Vector) -> Sign
    requires some { 1 ≤ total }
    requires limit { total ≤ ball_limit K.DIM }
    requires vector { IsVectorWithin (difference_limit K.DIM) (vector_of x) }
    requires sum { IsVectorWithin (total * difference_limit K.DIM) (sum_of sum) }
    ensures { result ≡ sign_of (slack_from_origin (sum_of sum) total (vector_of x)) }
{
    let along = x.x as i128 * sum.x + x.y as i128 * sum.y + x.z as i128 * sum.z;
    sign_of_number(2 * along - total as i128 * kernel.dot(x, x))
}
