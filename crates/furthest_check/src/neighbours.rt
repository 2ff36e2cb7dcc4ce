//! Furthest neighbours: the hull's corners, each with the first corner that is furthest from it, and the greatest distance.
ghost use Rattle.std.specs.Prelude.{◌≡◌, ◌↔◌, ◌^◌, pos, ◌≤ℤ◌, length, map, IsTrue};
ghost use Rattle.integers.specs.Size.{Size};
ghost use Rattle.integers.specs.Extremes.{greatest};
ghost use Rattle.bounds_model.specs.Fractions.{SameValue};
ghost use Rattle.bounds_model.specs.Ranges.{IsFraction};
ghost use Rattle.bounded_coords.specs.Clouds.{points_of};
ghost use Rattle.answers.specs.Answers.{entry_of, furthest_of};
ghost use Rattle.bounds_model.specs.FurthestAnswer.{PassesFurthest, corner_numbers, far_distance};
ghost use Rattle.optimality.specs.Laws.{AreFurthest};
ghost use Rattle.furthest_check.specs.RowTests.{HasFurthestLimits};

use crate::limits::{has_limits, numbers_of};
use crate::rows::are_furthest;
use answers::{Entry, FurthestAnswer};
use bounded_coords::Cloud2;
use directions::squared_distance;
use exact_fractions::Frac;
use hull_test::{corner, is_around};
use optimality::furthest::passing_answers_are_furthest;

/// Whether the listed corners go once around all points, the corner named for each is the first that is furthest from it, going around, and the
/// size is the greatest of these squared distances (CGAL manual, Optimal Distances, `all_furthest_neighbors_2`).
pub fn check_furthest(cloud: Cloud2<'_>, a: &FurthestAnswer) -> bool
    ensures passes { IsTrue result ↔ PassesFurthest (points_of cloud.entry) (furthest_of a.now) }
    ensures furthest { IsTrue result → AreFurthest (points_of cloud.entry) (furthest_of a.now) }
{
    passing_answers_are_furthest();
    let entries = a.entries.as_slice();
    if !has_limits(cloud, entries) {
        return false;
    }
    let numbers = numbers_of(entries);
    passes(cloud, &numbers[..entries.len()], entries, &a.size)
}

/// Whether entries within their limits pass, with the numbers of their corners.
fn passes(cloud: Cloud2<'_>, numbers: &[u32], entries: &[Entry], size: &Frac) -> bool
    requires limits { HasFurthestLimits (length (points_of cloud)) (map entry_of entries.now) }
    requires numbers { numbers.now ≡ corner_numbers (map entry_of entries.now) }
    ensures { IsTrue result
        ↔ PassesFurthest (points_of cloud.entry) (record { size = size.now; entries = map entry_of entries.now }) }
{
    if !is_size(size, greatest_distance(cloud, numbers, entries)) {
        return false;
    }
    // Before the named corners, since few comparisons a corner suffice only around a hull.
    if !is_around(cloud, numbers) {
        return false;
    }
    are_furthest(cloud, numbers, entries)
}

/// The greatest squared distance of a corner from the one that is named for it.
fn greatest_distance(cloud: Cloud2<'_>, numbers: &[u32], entries: &[Entry]) -> i64
    requires limits { HasFurthestLimits (length (points_of cloud)) (map entry_of entries.now) }
    requires numbers { numbers.now ≡ corner_numbers (map entry_of entries.now) }
    ensures greatest { result
        ≡ greatest (far_distance (points_of cloud.entry) (map entry_of entries.now)) (map entry_of entries.now) }
    ensures not_negative { pos 0 ≤ℤ result }
    ensures small { Size 320000000000 result }
{
    let mut most = 0;
    'entries: for i in 0..entries.len() {
        let here = corner(cloud, numbers, i);
        let there = corner(cloud, numbers, entries[i].far as usize);
        most = most.max(squared_distance(here, there));
    }
    most
}

/// Whether the size is this number.
fn is_size(size: &Frac, distance: i64) -> bool
    requires not_negative { pos 0 ≤ℤ distance }
    requires small { Size 320000000000 distance }
    ensures value { IsTrue result ↔ SameValue size.now (record { n = distance; d = pos 1 }) }
    ensures lowest { IsFraction size.now }
{
    size.is_ratio(u128::from(distance.unsigned_abs()), 1)
}
