//! Polygons: some of a hull's corners, and what is asked of their numbers, their area and the potentials.
ghost use Rattle.std.specs.Prelude.{◌≡◌, ◌↔◌, ◌*◌, ◌^◌, ◌<◌, ◌≤◌, ◌≤ℤ◌, ◌∷◌};
ghost use Rattle.std.specs.Prelude.{pos, [], length, map, All, IsTrue, slice_index_or};
ghost use Rattle.std.specs.List.Sorted.{IsStrictlyIncreasing};
ghost use Rattle.integers.specs.Size.{Size};
ghost use Rattle.bounds_model.specs.Plane.{point_at};
ghost use Rattle.bounds_model.specs.Fractions.{SameValue};
ghost use Rattle.bounds_model.specs.Ranges.{IsFraction};
ghost use Rattle.bounds_model.specs.Numbers.{HasCount, EachBelow};
ghost use Rattle.bounds_model.specs.Kgon.{twice_area};
ghost use Rattle.bounds_model.specs.KgonAnswer.{corner_points, pairs_before};
ghost use Rattle.bounds_model.specs.Firsts.{IsFirstKgon};
ghost use Rattle.bounds_model.specs.Asks.{ask_kgon, plane};
ghost use Rattle.bounds_model.specs.Answers.{Passes, IsBest, kgon};
ghost use Rattle.bounded_coords.specs.Clouds.{points_of};
ghost use Rattle.answers.specs.Answers.{polygon_of};
ghost use Rattle.polygon_check.specs.PolygonLimits.{AreCornerNumbers, IsChoice, HasLayers};
ghost use Rattle.polygon_check.specs.PolygonLimits.{HasPolygonLimits};
ghost use Rattle.polygon_check.specs.FirstTests.{AreSmaller};

use crate::corners::{listed_corners, twice_area as twice_area_of};
use crate::firsts::passes_over_none;
use crate::potentials::raise_all;
use added_areas::MOST_CORNERS;
use answers::KgonAnswer;
use bounded_coords::{Cloud2, Point2};
use exact_fractions::Frac;
use hull_test::is_around;
use optimality::answer::passing_answers_are_best;
use optimality::kgon::passing_kgons_are_first;

/// Whether the listed corners go once around all points, the chosen ones are at most k and have the printed area, the potentials show that
/// no polygon of at most k corners has more (CGAL manual, Inscribed Areas, `maximum_area_inscribed_k_gon_2`), and of those that have as
/// much the chosen one comes first in the order of lists of positions. Each triangle over two corners raises the potential by at least
/// twice its area, no potential is above twice the printed area, and those of a first corner before the chosen one are below it. No corner
/// between two chosen ones, with the most that later ones add to it, reaches that area in place of the second.
pub fn check_kgon(cloud: Cloud2<'_>, k: u8, a: &KgonAnswer) -> bool
    requires three { 3 ≤ k }
    requires twelve { k ≤ 12 }
    ensures passes { IsTrue result
        ↔ Passes (ask_kgon k) (plane (points_of cloud.entry)) (kgon (polygon_of a.now)) }
    ensures best { IsTrue result
        → IsBest (ask_kgon k) (plane (points_of cloud.entry)) (kgon (polygon_of a.now)) }
    ensures first { IsTrue result
        → IsFirstKgon k (corner_points (points_of cloud.entry) (polygon_of a.now)) (polygon_of a.now).chosen }
{
    passing_answers_are_best();
    passing_kgons_are_first();
    if !has_limits(cloud, k, a) {
        return false;
    }
    let numbers = a.corners.as_slice();
    let chosen = a.chosen.as_slice();
    let listed = listed_corners(cloud, numbers);
    let corners = &listed[..numbers.len()];
    let area = chosen_area(corners, chosen);
    if !is_size(&a.size, area) {
        return false;
    }
    // The potentials of an answer may have 126 bits. Once none is above twice the area, which has at most 43, all later sums fit 64 bits.
    if !are_under(a.potentials.as_slice(), area) {
        return false;
    }
    if !are_earlier_below(a, area) {
        return false;
    }
    if !is_alone_of_few(chosen, numbers.len()) {
        return false;
    }
    if !is_around(cloud, numbers) {
        return false;
    }
    if !passes_over_none(corners, chosen, a.layers as usize, area) {
        return false;
    }
    raise_all(corners, a)
}

// ---- the limits

/// Whether all lists are within their limits.
fn has_limits(cloud: Cloud2<'_>, k: u8, a: &KgonAnswer) -> bool
    requires { k ≤ 12 }
    ensures { IsTrue result ↔ HasPolygonLimits k (length (points_of cloud.entry)) (polygon_of a.now) }
{
    let numbers = a.corners.as_slice();
    if !are_corner_numbers(numbers, cloud.len()) {
        return false;
    }
    if !is_choice(a.chosen.as_slice(), k, numbers.len()) {
        return false;
    }
    has_layers(a, k)
}

/// Whether there are 1 to 128 numbers, all of them below the number of points.
fn are_corner_numbers(numbers: &[u32], count: u32) -> bool
    ensures { IsTrue result ↔ AreCornerNumbers count numbers.now }
{
    !numbers.is_empty()
        && numbers.len() <= MOST_CORNERS
        && numbers.iter().all(|number| *number < count)
}

/// Whether there are some chosen positions, at most k and at most all, that rise and are below the number of corners.
fn is_choice(chosen: &[u32], k: u8, count: usize) -> bool
    requires { count ≤ 128 }
    ensures { IsTrue result ↔ IsChoice k count chosen.now }
{
    if chosen.is_empty() || chosen.len() > usize::from(k).min(count) {
        return false;
    }
    rises(chosen) && chosen.iter().all(|i| *i < count as u32)
}

/// Whether each number is below the next.
fn rises(numbers: &[u32]) -> bool
    requires { 1 ≤ length numbers.now }
    ensures { IsTrue result ↔ IsStrictlyIncreasing numbers.now }
{
    'numbers: for i in 0..numbers.len() - 1 {
        if numbers[i] >= numbers[i + 1] {
            return false;
        }
    }
    true
}

/// Whether there are as many layers as a polygon has triangles, and as many potentials as there are pairs of corners in each.
fn has_layers(a: &KgonAnswer, k: u8) -> bool
    requires k { k ≤ 12 }
    requires some { 1 ≤ length a.now.corners }
    requires few { length a.now.corners ≤ 128 }
    ensures { IsTrue result ↔ HasLayers k (polygon_of a.now) }
{
    let count = a.corners.len() as usize;
    if a.layers as usize != usize::from(k).min(count).saturating_sub(2) {
        return false;
    }
    a.potentials.len() as usize == a.potentials_before(count)
}

// ---- the size

/// Twice the area of the chosen corners' polygon.
fn chosen_area(corners: &[Point2], chosen: &[u32]) -> i64
    requires chosen { All (λ i. i < length corners.now) chosen.now }
    requires some { 1 ≤ length chosen.now }
    requires few { length chosen.now ≤ 12 }
    ensures area { result ≡ twice_area (map (point_at corners.now) chosen.now) }
    ensures small { Size (2 ^ 43) result }
{
    let first = &corners[chosen[0] as usize];
    let mut area = 0;
    'chosen: for i in 1..chosen.len() {
        let before = &corners[chosen[i - 1] as usize];
        let here = &corners[chosen[i] as usize];
        area += twice_area_of(first, before, here);
    }
    area
}

/// Whether the size is half of this.
fn is_size(size: &Frac, area: i64) -> bool
    requires { Size (2 ^ 43) area }
    ensures value { IsTrue result ↔ SameValue size.now (record { n = area; d = pos 2 }) }
    ensures lowest { IsFraction size.now }
    ensures not_negative { IsTrue result → pos 0 ≤ℤ area }
{
    let is_half = size.is_ratio(u128::from(area.unsigned_abs()), 2);
    0 <= area && is_half
}

/// Whether no potential is above twice the area.
fn are_under(potentials: &[u128], area: i64) -> bool
    requires not_negative { pos 0 ≤ℤ area }
    requires small { Size (2 ^ 43) area }
    ensures { IsTrue result ↔ All (λ u. pos u ≤ℤ area) potentials.now }
{
    let most = u128::from(area.unsigned_abs());
    are_at_most(potentials, most)
}

/// Whether the potentials of each first corner before the first chosen one are below twice the area.
fn are_earlier_below(a: &KgonAnswer, area: i64) -> bool
    requires count { HasCount 1 128 a.now.corners }
    requires layers { a.now.layers ≤ 10 }
    requires as_many { length a.now.potentials ≡ a.now.layers * pairs_before (length a.now.corners) (length a.now.corners) }
    requires some { 1 ≤ length a.now.chosen.items }
    requires chosen { All (λ i. i < length a.now.corners) a.now.chosen.items }
    requires not_negative { pos 0 ≤ℤ area }
    requires small { Size (2 ^ 43) area }
    ensures { IsTrue result
        ↔ EachBelow (slice_index_or a.now.chosen.items 0 0) (AreSmaller (polygon_of a.now) area) }
{
    let limit = u128::from(area.unsigned_abs());
    let earlier = a.potentials_before(a.chosen[0] as usize);
    are_below(&a.potentials.as_slice()[..earlier], limit)
}

/// Whether of one or two corners the first alone is chosen.
fn is_alone_of_few(chosen: &[u32], count: usize) -> bool
    ensures { IsTrue result ↔ (count < 3 → chosen.now ≡ 0 ∷ []) }
{
    3 <= count || chosen.len() == 1 && chosen[0] == 0
}

/// Whether each number is below this.
fn are_below(numbers: &[u128], limit: u128) -> bool
    ensures { IsTrue result ↔ All (λ u. u < limit) numbers.now }
{
    numbers.iter().all(|u| *u < limit)
}

/// Whether no number is above this.
fn are_at_most(numbers: &[u128], most: u128) -> bool
    ensures { IsTrue result ↔ All (λ u. u ≤ most) numbers.now }
{
    numbers.iter().all(|u| *u <= most)
}
