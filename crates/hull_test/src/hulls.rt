//! Whether corners go once around all points.
ghost use Rattle.std.specs.Prelude.{◌≡◌, ◌↔◌, ◌+◌, ◌<◌, ◌≤◌, pos, length, map, All, IsTrue};
ghost use Rattle.bounds_model.specs.Plane.{point_at, turn as turn_of, IsBefore};
ghost use Rattle.bounds_model.specs.CornerTest.{CornersPass, FirstIsOnce};
ghost use Rattle.bounded_coords.specs.Clouds.{points_of};
ghost use Rattle.hull_test.specs.CornerNumbers.{AreCornerNumbers};

use crate::chain::go_around;
use bounded_coords::laws::is_before;
use bounded_coords::{Cloud2, Point2};
use directions::turn;

/// The corner at this position of a list of points' numbers.
pub fn corner<'a>(cloud: Cloud2<'a>, numbers: &[u32], i: usize) -> &'a Point2
    requires below { i < length numbers.now }
    requires numbers { All (λ n. n < length (points_of cloud)) numbers.now }
    ensures { result.now ≡ point_at (map (point_at (points_of cloud.entry)) numbers.now) i }
{
    cloud.at(numbers[i])
}

/// Whether the corners begin with the least point and go once around all points, so that they are the corners of the hull: n points and
/// h corners take about n log h steps (Preparata and Shamos, Computational Geometry, inclusion in a convex polygon).
pub fn is_around(cloud: Cloud2<'_>, numbers: &[u32]) -> bool
    requires { AreCornerNumbers (length (points_of cloud)) numbers.now }
    ensures { IsTrue result
        ↔ CornersPass (points_of cloud.entry) (map (point_at (points_of cloud.entry)) numbers.now) }
{
    let first = corner(cloud, numbers, 0);
    if !is_least(cloud, first) {
        return false;
    }
    // A list that winds around comes back to its first corner where no point is outside its first round.
    // So this bounds the steps of `go_around` too.
    if !is_once(cloud, numbers) {
        return false;
    }
    if numbers.len() == 1 {
        return are_all(cloud, first);
    }
    if numbers.len() == 2 {
        return lead_to_greatest(cloud, first, corner(cloud, numbers, 1));
    }
    go_around(cloud, numbers)
}

/// Whether the points are equal.
fn is_same(a: &Point2, b: &Point2) -> bool
    ensures { IsTrue result ↔ (a.now ≡ b.now) }
{
    *a == *b
}

/// Whether this point is before all, or equal to them.
fn is_least(cloud: Cloud2<'_>, a: &Point2) -> bool
    ensures { IsTrue result ↔ All (IsBefore a.now) (points_of cloud.entry) }
{
    for i in 0..cloud.len() {
        if !is_before(a, cloud.at(i)) {
            return false;
        }
    }
    true
}

/// Whether all points are before this one, or equal to it.
fn is_greatest(cloud: Cloud2<'_>, a: &Point2) -> bool
    ensures { IsTrue result ↔ All (λ p. IsBefore p a.now) (points_of cloud.entry) }
{
    for i in 0..cloud.len() {
        if !is_before(cloud.at(i), a) {
            return false;
        }
    }
    true
}

/// Whether all points are this one.
fn are_all(cloud: Cloud2<'_>, a: &Point2) -> bool
    ensures { IsTrue result ↔ All (λ p. p ≡ a.now) (points_of cloud.entry) }
{
    for i in 0..cloud.len() {
        if !is_same(cloud.at(i), a) {
            return false;
        }
    }
    true
}

/// Whether no later corner is the first one.
fn is_once(cloud: Cloud2<'_>, numbers: &[u32]) -> bool
    requires { AreCornerNumbers (length (points_of cloud)) numbers.now }
    ensures { IsTrue result ↔ FirstIsOnce (map (point_at (points_of cloud.entry)) numbers.now) }
{
    let first = corner(cloud, numbers, 0);
    for i in 1..numbers.len() {
        if is_same(corner(cloud, numbers, i), first) {
            return false;
        }
    }
    true
}

/// Whether the second point is the greatest, and all points are on the line from the first to it.
fn lead_to_greatest(cloud: Cloud2<'_>, a: &Point2, b: &Point2) -> bool
    ensures { IsTrue result ↔ (All (λ p. IsBefore p b.now) (points_of cloud.entry)
        × All (λ p. turn_of a.now b.now p ≡ pos 0) (points_of cloud.entry)) }
{
    is_greatest(cloud, b) && are_on_line(cloud, a, b)
}

/// Whether all points are on the line through two.
fn are_on_line(cloud: Cloud2<'_>, a: &Point2, b: &Point2) -> bool
    ensures { IsTrue result ↔ All (λ p. turn_of a.now b.now p ≡ pos 0) (points_of cloud.entry) }
{
    for i in 0..cloud.len() {
        if !is_flat(a, b, cloud.at(i)) {
            return false;
        }
    }
    true
}

/// Whether three points are on a line.
fn is_flat(a: &Point2, b: &Point2, c: &Point2) -> bool
    ensures { IsTrue result ↔ (turn_of a.now b.now c.now ≡ pos 0) }
{
    let area = turn(a, b, c);
    0 <= area && area <= 0
}
