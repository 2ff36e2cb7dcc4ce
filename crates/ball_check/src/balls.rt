//! Circles and spheres: weighted points that determine a ball around all points.
ghost use Rattle.std.specs.Prelude.{◌≡◌, ◌↔◌, ◌≤◌, ◌<◌, ◌^◌, pos, ◌<ℤ◌, length, map, All, IsTrue, MatchOption};
ghost use Rattle.bounds_model.specs.Space.{vector, origin, SamePlace, flat, flat_ratio};
ghost use Rattle.bounds_model.specs.Fractions.{SameValue};
ghost use Rattle.bounds_model.specs.Ranges.{IsFraction, IsPlaneRatio, IsSpaceRatio};
ghost use Rattle.bounds_model.specs.BallAnswer.{first_support, supported_size, supported_centre, IsOnBall, IsNotOutside};
ghost use Rattle.bounds_model.specs.Asks.{ask_circle, ask_sphere, plane, space};
ghost use Rattle.bounds_model.specs.Answers.{Passes, IsBest, circle, sphere};
ghost use Rattle.bounded_coords.specs.Clouds.{points_of};
ghost use Rattle.kernel_laws.specs.Vectors.{sum_of};
ghost use Rattle.kernel_laws.specs.Signs.{slack_from_origin};
ghost use Rattle.answers.specs.Answers.{weighted_of, circle_of, sphere_of};
ghost use Rattle.ball_sums.specs.Sums.{IsInRange};
ghost use Rattle.ball_sums.specs.Means.{mean_size, plane_mean, space_mean};
ghost use Rattle.ball_sums.specs.DeterminedBalls.{HasBallLimits, DetermineBall, AreSupportSums, places_of};

use answers::{BallAnswer2, BallAnswer3, Weighted};
use ball_sums::Sums;
use bounded_coords::{Cloud, Cloud2, Cloud3, Point2, Point3};
use exact_fractions::{Frac, Homog2, Homog3};
use kernel_laws::{Kernel, Plane, Sign, Space, side};
use optimality::answer::passing_answers_are_best;

/// Whether the supports determine a circle of this size and centre around all points (CGAL manual, Bounding Volumes,
/// `Min_circle_2`): with its weights, each support is on the circle around the weighted mean, and no point is outside. A circle is
/// the smallest around points on it exactly where its centre is a weighted mean of them (Seidel's lemma, in Fischer, Gärtner and
/// Kutz, Fast smallest-enclosing-ball computation in high dimensions).
pub fn check_circle(cloud: Cloud2<'_>, a: &BallAnswer2) -> bool
    ensures passes { IsTrue result ↔ Passes ask_circle (plane (points_of cloud.entry)) (circle (circle_of a.now)) }
    ensures best { IsTrue result → IsBest ask_circle (plane (points_of cloud.entry)) (circle (circle_of a.now)) }
{
    passing_answers_are_best();
    let supports = a.supports.as_slice();
    match determined_ball(&Plane, cloud, supports, &a.size) {
        Some(totals) => is_plane_centre(&a.center, cloud.at(supports[0].point), &totals),
        None => false,
    }
}

/// Whether the supports determine a sphere of this size and centre around all points, as for a circle.
pub fn check_sphere(cloud: Cloud3<'_>, a: &BallAnswer3) -> bool
    ensures passes { IsTrue result ↔ Passes ask_sphere (space (points_of cloud.entry)) (sphere (sphere_of a.now)) }
    ensures best { IsTrue result → IsBest ask_sphere (space (points_of cloud.entry)) (sphere (sphere_of a.now)) }
{
    passing_answers_are_best();
    let supports = a.supports.as_slice();
    match determined_ball(&Space, cloud, supports, &a.size) {
        Some(totals) => is_space_centre(&a.center, cloud.at(supports[0].point), &totals),
        None => false,
    }
}

/// The sums over the supports, where these determine a ball of this size around all points.
fn determined_ball<K: Kernel>(
    kernel: &K,
    cloud: Cloud<'_, K::P>,
    supports: &[Weighted],
    size: &Frac,
) -> Option<Sums>
    ensures { MatchOption result (DetermineBall K.DIM (places_of K.place cloud.entry) (map weighted_of supports.now) size.now → ⊥)
        (λ h. DetermineBall K.DIM (places_of K.place cloud.entry) (map weighted_of supports.now) size.now
        × AreSupportSums K.DIM (places_of K.place cloud.entry) (map weighted_of supports.now) h) }
{
    let totals = sums(kernel, cloud, supports)?;
    // What needs no pass over the points comes first.
    if !is_size(size, &totals) {
        return None;
    }
    if !are_on_ball(kernel, cloud, supports, &totals) {
        return None;
    }
    if !is_none_outside(kernel, cloud, supports, &totals) {
        return None;
    }
    Some(totals)
}

// ---- the limits

/// The sums over the supports, as seen from the first. None where there are none, one is no point's, or a weight or their sum
/// is not within the limits.
fn sums<K: Kernel>(kernel: &K, cloud: Cloud<'_, K::P>, supports: &[Weighted]) -> Option<Sums>
    ensures { MatchOption result (HasBallLimits K.DIM (length (points_of cloud.entry)) (map weighted_of supports.now) → ⊥)
        (λ h. HasBallLimits K.DIM (length (points_of cloud.entry)) (map weighted_of supports.now)
        × AreSupportSums K.DIM (places_of K.place cloud.entry) (map weighted_of supports.now) h) }
{
    if supports.is_empty() {
        return None;
    }
    if !are_numbers(supports, cloud.len()) {
        return None;
    }
    let first = cloud.at(supports[0].point);
    let mut totals = Sums::none();
    for s in supports {
        let to = kernel.diff(first, cloud.at(s.point));
        totals = totals.checked_with(kernel, s.weight, to)?;
    }
    Some(totals)
}

/// Whether the supports name points, of which there are so many.
fn are_numbers(supports: &[Weighted], count: u32) -> bool
    ensures { IsTrue result ↔ All (λ s. s.point < count) supports.now }
{
    supports.iter().all(|s| s.point < count)
}

// ---- the size, the supports and the points

/// Whether the size is half the weighted mean of the supports' squared distances from the first.
fn is_size(size: &Frac, totals: &Sums) -> bool
    requires some { 1 ≤ totals.now.weight }
    requires weight { totals.now.weight ≤ 2 ^ 92 }
    requires second_moment { totals.now.second_moment ≤ 2 ^ 122 }
    ensures { IsTrue result ↔ (IsFraction size.now × SameValue size.now (mean_size totals.now)) }
{
    let mean = totals.size();
    size.num() == mean.num() && size.den() == mean.den()
}

/// Whether all supports are on the ball.
fn are_on_ball<K: Kernel>(
    kernel: &K,
    cloud: Cloud<'_, K::P>,
    supports: &[Weighted],
    totals: &Sums,
) -> bool
    requires limits { HasBallLimits K.DIM (length (points_of cloud)) (map weighted_of supports.now) }
    requires totals { AreSupportSums K.DIM (places_of K.place cloud) (map weighted_of supports.now) totals.now }
    ensures { IsTrue result ↔ All (IsOnBall (places_of K.place cloud.entry) (map weighted_of supports.now)) (map weighted_of supports.now) }
{
    let first = cloud.at(supports[0].point);
    for s in supports {
        if !is_on(kernel, totals, first, cloud.at(s.point)) {
            return false;
        }
    }
    true
}

/// Whether no point is outside the ball.
fn is_none_outside<K: Kernel>(
    kernel: &K,
    cloud: Cloud<'_, K::P>,
    supports: &[Weighted],
    totals: &Sums,
) -> bool
    requires limits { HasBallLimits K.DIM (length (points_of cloud)) (map weighted_of supports.now) }
    requires totals { AreSupportSums K.DIM (places_of K.place cloud) (map weighted_of supports.now) totals.now }
    ensures { IsTrue result ↔ All (IsNotOutside (places_of K.place cloud.entry) (map weighted_of supports.now))
        (places_of K.place cloud.entry) }
{
    let first = cloud.at(supports[0].point);
    for i in 0..cloud.len() {
        if is_outside(kernel, totals, first, cloud.at(i)) {
            return false;
        }
    }
    true
}

/// Whether a point is on the ball.
fn is_on<K: Kernel>(kernel: &K, totals: &Sums, first: &K::P, p: &K::P) -> bool
    requires some { 1 ≤ totals.now.weight }
    requires range { IsInRange K.DIM totals.now }
    ensures { IsTrue result ↔ (slack_from_origin (sum_of totals.now.pull) totals.now.weight (vector (K.place first.now) (K.place p.now)) ≡ pos 0) }
{
    matches!(
        side(kernel, totals.pull, totals.weight, kernel.diff(first, p)),
        Sign::Zero
    )
}

/// Whether a point is outside the ball.
fn is_outside<K: Kernel>(kernel: &K, totals: &Sums, first: &K::P, p: &K::P) -> bool
    requires some { 1 ≤ totals.now.weight }
    requires range { IsInRange K.DIM totals.now }
    ensures { IsTrue result ↔ (slack_from_origin (sum_of totals.now.pull) totals.now.weight (vector (K.place first.now) (K.place p.now)) <ℤ pos 0) }
{
    matches!(
        side(kernel, totals.pull, totals.weight, kernel.diff(first, p)),
        Sign::Minus
    )
}

// ---- the centre

/// Whether the centre is the weighted mean of the supports.
fn is_plane_centre(centre: &Homog2, first: &Point2, totals: &Sums) -> bool
    requires some { 1 ≤ totals.now.weight }
    requires range { IsInRange 2 totals.now }
    ensures { IsTrue result ↔ (IsPlaneRatio centre.now × SamePlace (flat_ratio centre.now) (flat_ratio (plane_mean first.now totals.now))) }
{
    *centre == totals.plane_centre(first)
}

/// Whether the centre is the weighted mean of the supports.
fn is_space_centre(centre: &Homog3, first: &Point3, totals: &Sums) -> bool
    requires some { 1 ≤ totals.now.weight }
    requires range { IsInRange 3 totals.now }
    ensures { IsTrue result ↔ (IsSpaceRatio centre.now × SamePlace centre.now (space_mean first.now totals.now)) }
{
    *centre == totals.space_centre(first)
}
