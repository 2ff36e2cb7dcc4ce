//! Products of directions and points.
ghost use Rattle.std.specs.Prelude.{◌≡◌, ◌<◌, ◌≤◌, ◌-ℤ◌, ◌≤ℤ◌, pos, length};
ghost use Rattle.integers.specs.Size.{Size};
ghost use Rattle.bounds_model.specs.Plane.{dot, vector, cross as cross_of, squared_distance as squared_distance_of, squared_length as squared_length_of, turn as turn_of, quarter_turn as quarter_turn_of};
ghost use Rattle.bounds_model.specs.Fans.{IsShort, reach as reach_of};
ghost use Rattle.bounded_coords.specs.Clouds.{points_of};
ghost use Rattle.answers.specs.Answers.{vector_of};

use answers::Dir;
use bounded_coords::{Cloud2, Point2};

/// How far out a point lies in a direction.
pub fn along(d: Dir, p: &Point2) -> i64
    requires { IsShort (vector_of d) }
    ensures value { result ≡ dot (vector_of d) p.now }
    ensures size { Size 160000000000 result }
{
    d.x as i64 * p.x() as i64 + d.y as i64 * p.y() as i64
}

/// How far the one point lies out beyond the other.
pub fn reach(cloud: Cloud2<'_>, d: Dir, hi: u32, lo: u32) -> i64
    requires direction { IsShort (vector_of d) }
    requires hi { hi < length (points_of cloud) }
    requires lo { lo < length (points_of cloud) }
    ensures value { result ≡ reach_of (points_of cloud.entry) (vector_of d) hi lo }
    ensures size { Size 320000000000 result }
{
    along(d, cloud.at(hi)) - along(d, cloud.at(lo))
}

/// How far the point q lies out beyond the point p, which it is not behind.
pub fn beyond(d: Dir, p: &Point2, q: &Point2) -> u128
    requires direction { IsShort (vector_of d) }
    requires order { dot (vector_of d) p.now ≤ℤ dot (vector_of d) q.now }
    ensures value { pos result ≡ dot (vector_of d) q.now -ℤ dot (vector_of d) p.now }
    ensures p_size { Size 160000000000 (dot (vector_of d) p.now) }
    ensures q_size { Size 160000000000 (dot (vector_of d) q.now) }
{
    (along(d, q) - along(d, p)).unsigned_abs() as u128
}

/// Twice the area of the triangle a, b, c, above 0 where it turns left.
pub fn turn(a: &Point2, b: &Point2, c: &Point2) -> i64
    ensures value { result ≡ turn_of a.now b.now c.now }
    ensures size { Size 320000000000 result }
{
    let (x, y) = (a.x() as i64, a.y() as i64);
    (b.x() as i64 - x) * (c.y() as i64 - y) - (b.y() as i64 - y) * (c.x() as i64 - x)
}

/// The squared distance of two points.
pub fn squared_distance(a: &Point2, b: &Point2) -> i64
    ensures value { result ≡ squared_distance_of a.now b.now }
    ensures size { Size 320000000000 result }
{
    let x = b.x() as i64 - a.x() as i64;
    let y = b.y() as i64 - a.y() as i64;
    x * x + y * y
}

/// The cross product of a direction and the vector from a to b.
pub fn cross(d: Dir, a: &Point2, b: &Point2) -> i64
    requires { IsShort (vector_of d) }
    ensures value { result ≡ cross_of (vector_of d) (vector a.now b.now) }
    ensures size { Size 320000000000 result }
{
    let x = b.x() as i64 - a.x() as i64;
    let y = b.y() as i64 - a.y() as i64;
    d.x as i64 * y - d.y as i64 * x
}

/// The cross product of two directions, above 0 where the second is to the left of the first.
pub fn cross_directions(d: Dir, e: Dir) -> i64
    requires first { IsShort (vector_of d) }
    requires second { IsShort (vector_of e) }
    ensures value { result ≡ cross_of (vector_of d) (vector_of e) }
    ensures size { Size 320000000000 result }
{
    d.x as i64 * e.y as i64 - d.y as i64 * e.x as i64
}

/// The square of a direction's length.
pub fn squared_length(d: Dir) -> u128
    requires { IsShort (vector_of d) }
    ensures value { pos result ≡ squared_length_of (vector_of d) }
    ensures limit { result ≤ 320000000000 }
{
    let (x, y) = (d.x.unsigned_abs(), d.y.unsigned_abs());
    x * x + y * y
}

/// The direction turned left by a right angle.
pub fn quarter_turn(d: Dir) -> Dir
    requires { IsShort (vector_of d) }
    ensures value { vector_of result ≡ quarter_turn_of (vector_of d) }
    ensures short { IsShort (vector_of result) }
{
    Dir { x: -d.y, y: d.x }
}
