//! The limits of the numbers in an answer on centres, and whether its squares cover the points.
ghost use Rattle.std.specs.Prelude.{◌≡◌, ◌↔◌, ◌≤◌, ◌*ℤ◌, ◌-ℤ◌, ◌≤ℤ◌, pos, nat_abs, map, All, Any, IsTrue};
ghost use Rattle.integers.specs.Size.{Size};
ghost use Rattle.bounds_model.specs.Centres.{IsNear};
ghost use Rattle.bounds_model.specs.CentresAnswer.{side as side_of};
ghost use Rattle.bounded_coords.specs.Clouds.{points_of};
ghost use Rattle.answers.specs.Answers.{leaf_of};
ghost use Rattle.centres_check.specs.CentresLimits.{IsSmallRadius, IsSmallCentre, NamesPoints, IsWithinLimits};

use answers::Leaf;
use bounded_coords::{Cloud2, Point2};
use exact_fractions::{Frac, Homog2};

/// The greatest numerator of a radius, and the greatest magnitude of a centre's numerators.
const LIMIT: u128 = 1_000_000;

/// Whether there are p squares, and all numbers are within their limits.
pub(crate) fn is_within_limits(
    cloud: Cloud2<'_>,
    p: u8,
    radius: &Frac,
    squares: &[Homog2],
    leaves: &[Leaf],
) -> bool
    ensures { IsTrue result ↔ IsWithinLimits p (points_of cloud.entry)
        (record { size = radius.now; squares = squares.now; leaves = map leaf_of leaves.now }) }
{
    squares.len() == usize::from(p)
        && is_small_radius(radius)
        && are_small_centres(squares)
        && are_numbers(leaves, cloud.len())
}

/// Whether the radius is within the checker's limits.
fn is_small_radius(radius: &Frac) -> bool
    ensures { IsTrue result ↔ IsSmallRadius radius.now }
{
    radius.den() <= 2 && radius.num() <= LIMIT
}

/// Whether the centres are within the checker's limits.
fn are_small_centres(squares: &[Homog2]) -> bool
    ensures { IsTrue result ↔ All IsSmallCentre squares.now }
{
    squares.iter().all(|c| is_small_centre(c))
}

/// Whether the centre is within the checker's limits.
fn is_small_centre(c: &Homog2) -> bool
    ensures { IsTrue result ↔ IsSmallCentre c.now }
{
    c.w() <= 2 && c.x().unsigned_abs() <= LIMIT && c.y().unsigned_abs() <= LIMIT
}

/// Whether the leaves name points, of which there are so many.
fn are_numbers(leaves: &[Leaf], count: u32) -> bool
    ensures { IsTrue result ↔ All (λ leaf. NamesPoints count (leaf_of leaf)) leaves.now }
{
    leaves
        .iter()
        .all(|leaf| leaf.first < count && leaf.second < count)
}

/// Whether each point is in one of the squares.
pub(crate) fn cover(squares: &[Homog2], radius: &Frac, cloud: Cloud2<'_>) -> bool
    requires centres { All IsSmallCentre squares.now }
    requires radius { IsSmallRadius radius.now }
    ensures { IsTrue result ↔ All (λ p. Any (IsNear radius.now p) squares.now) (points_of cloud.entry) }
{
    for i in 0..cloud.len() {
        if !is_covered(cloud.at(i), squares, radius) {
            return false;
        }
    }
    true
}

/// Whether the point is in one of the squares.
fn is_covered(p: &Point2, squares: &[Homog2], radius: &Frac) -> bool
    requires centres { All IsSmallCentre squares.now }
    requires radius { IsSmallRadius radius.now }
    ensures { IsTrue result ↔ Any (IsNear radius.now p.now) squares.now }
{
    for c in squares {
        if is_near(p, c, radius) {
            return true;
        }
    }
    false
}

/// Whether the point is in the square.
fn is_near(p: &Point2, c: &Homog2, radius: &Frac) -> bool
    requires centre { IsSmallCentre c.now }
    requires radius { IsSmallRadius radius.now }
    ensures { IsTrue result ↔ IsNear radius.now p.now c.now }
{
    let (w, d) = (c.w() as i64, radius.den() as i64);
    let scaled_radius = radius.num() as i64 * w;
    is_within_radius(i64::from(p.x()), c.x() as i64, w, d, scaled_radius)
        && is_within_radius(i64::from(p.y()), c.y() as i64, w, d, scaled_radius)
}

/// Whether a coordinate, times w, is at most scaled_radius / d away from the centre's numerator over w.
fn is_within_radius(coordinate: i64, centre: i64, w: i64, d: i64, scaled_radius: i64) -> bool
    requires coordinate { Size 200000 coordinate }
    requires centre { Size 1000000 centre }
    requires w { Size 2 w }
    requires d { Size 2 d }
    ensures { IsTrue result ↔ ((pos (nat_abs (w *ℤ coordinate -ℤ centre)) *ℤ d) ≤ℤ scaled_radius) }
{
    (w * coordinate - centre).abs() * d <= scaled_radius
}

/// The side of the squares with this radius.
pub(crate) fn side(radius: &Frac) -> u32
    requires { IsSmallRadius radius.now }
    ensures value { result ≡ side_of radius.now }
    ensures limit { result ≤ 2000000 }
{
    2 * radius.num() as u32 / radius.den() as u32
}
