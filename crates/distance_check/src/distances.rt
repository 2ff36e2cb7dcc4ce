//! Distances: weighted pairs of points that determine the distance of the hulls of two sets.
ghost use Rattle.std.specs.Prelude.{◌≡◌, ◌↔◌, ◌<◌, ◌≤◌, pos, ◌<ℤ◌, ◌≤ℤ◌, length, map, All, IsTrue, MatchOption};
ghost use Rattle.bounds_model.specs.Space.{vector, dot, SamePlace};
ghost use Rattle.bounds_model.specs.Fractions.{SameValue};
ghost use Rattle.bounds_model.specs.Ranges.{IsFraction, IsSpaceRatio};
ghost use Rattle.bounds_model.specs.DistanceAnswer.{difference, IsDirectionOf};
ghost use Rattle.bounds_model.specs.Asks.{ask_distance, two};
ghost use Rattle.bounds_model.specs.Answers.{Passes, IsBest, distance};
ghost use Rattle.bounded_coords.specs.Clouds.{points_of};
ghost use Rattle.answers.specs.Answers.{pair_of, space_vector_of, distance_of};
ghost use Rattle.pair_sums.specs.Sums.{IsInRange, pull_of};
ghost use Rattle.pair_sums.specs.Means.{mean_of, product_ratio};
ghost use Rattle.distance_check.specs.DeterminedDistances.{HasPairLimits, ArePairSums, IsShown, answer_by, AreNumbers};

use answers::{Dir3, DistanceAnswer, WeightedPair};
use bounded_coords::{Cloud3, Point3};
use exact_fractions::{Frac, Homog3};
use optimality::answer::passing_answers_are_best;
use pair_sums::PairSums;

/// Whether the pairs determine a distance of this size, from and to these points and in this direction (CGAL manual, Optimal Distances,
/// `Polytope_distance_d`): all their differences have one product with their weighted sum, and no difference of the sets a smaller
/// one. So the hulls lie on two sides of the layer between two planes normal to that sum, and its two points are on them.
pub fn check_distance(p: Cloud3<'_>, q: Cloud3<'_>, a: &DistanceAnswer) -> bool
    ensures passes { IsTrue result ↔ Passes ask_distance (two (points_of p.entry) (points_of q.entry)) (distance (distance_of a.now)) }
    ensures best { IsTrue result → IsBest ask_distance (two (points_of p.entry) (points_of q.entry)) (distance (distance_of a.now)) }
{
    passing_answers_are_best();
    let pairs = a.pairs.as_slice();
    match sums(p, q, pairs) {
        Some(totals) => is_shown(p, q, a, pairs, &totals),
        None => false,
    }
}

// ---- the limits

/// The sums over the pairs. None where there are none, one names no point of its set, or a weight or their sum is not within
/// the limits.
fn sums(p: Cloud3<'_>, q: Cloud3<'_>, pairs: &[WeightedPair]) -> Option<PairSums>
    ensures { MatchOption result (HasPairLimits (length (points_of p.entry)) (length (points_of q.entry)) (map pair_of pairs.now) → ⊥)
        (λ s. HasPairLimits (length (points_of p.entry)) (length (points_of q.entry)) (map pair_of pairs.now)
        × ArePairSums (points_of p.entry) (points_of q.entry) (map pair_of pairs.now) s) }
{
    if pairs.is_empty() {
        return None;
    }
    if !are_numbers(pairs, p.len(), q.len()) {
        return None;
    }
    let mut totals = PairSums::none();
    for pair in pairs {
        totals = totals.checked_with(pair.weight, p.at(pair.first), q.at(pair.second))?;
    }
    Some(totals)
}

/// Whether the pairs name points of the two sets, of which there are so many.
fn are_numbers(pairs: &[WeightedPair], first: u32, second: u32) -> bool
    ensures { IsTrue result ↔ All (λ pair. (pair.first < first) × (pair.second < second)) pairs.now }
{
    pairs
        .iter()
        .all(|pair| pair.first < first && pair.second < second)
}

// ---- what the pairs show

/// Whether the pairs show the answer to be best.
fn is_shown(
    p: Cloud3<'_>,
    q: Cloud3<'_>,
    a: &DistanceAnswer,
    pairs: &[WeightedPair],
    totals: &PairSums,
) -> bool
    requires limits { HasPairLimits (length (points_of p)) (length (points_of q)) (map pair_of pairs.now) }
    requires totals { ArePairSums (points_of p) (points_of q) (map pair_of pairs.now) totals.now }
    ensures { IsTrue result ↔ IsShown (points_of p.entry) (points_of q.entry) (answer_by a.now (map pair_of pairs.now)) }
{
    let first = p.at(pairs[0].first);
    let second = q.at(pairs[0].second);
    if !are_level(p, q, pairs, totals, first, second) {
        return false;
    }
    if !is_size(&a.size, totals, first, second) {
        return false;
    }
    if !is_first_mean(&a.from, totals) {
        return false;
    }
    if !is_second_mean(&a.to, totals) {
        return false;
    }
    if !is_direction(a.direction, totals) {
        return false;
    }
    if !is_none_before(p, first, totals) {
        return false;
    }
    is_none_beyond(q, second, totals)
}

/// Whether the differences of all pairs have the product of the first one's with their weighted sum.
fn are_level(
    p: Cloud3<'_>,
    q: Cloud3<'_>,
    pairs: &[WeightedPair],
    totals: &PairSums,
    first: &Point3,
    second: &Point3,
) -> bool
    requires limits { HasPairLimits (length (points_of p)) (length (points_of q)) (map pair_of pairs.now) }
    requires range { IsInRange totals.now }
    ensures { IsTrue result ↔ All
        (λ pair. dot (pull_of totals.now) (difference (points_of p.entry) (points_of q.entry) (pair_of pair)) ≡ dot (pull_of totals.now)
        (vector second.now first.now)) pairs.now }
{
    for pair in pairs {
        if !is_level(totals, p.at(pair.first), q.at(pair.second), first, second) {
            return false;
        }
    }
    true
}

/// Whether the vector from q to p has the product of the first pair's difference with the weighted sum.
fn is_level(totals: &PairSums, p: &Point3, q: &Point3, first: &Point3, second: &Point3) -> bool
    requires { IsInRange totals.now }
    ensures { IsTrue result ↔ (dot (pull_of totals.now) (vector q.now p.now) ≡ dot (pull_of totals.now) (vector second.now first.now)) }
{
    totals.product(p, q) == totals.product(first, second)
}

/// Whether the size is the product of the first pair's difference, over the sum of the weights.
fn is_size(size: &Frac, totals: &PairSums, first: &Point3, second: &Point3) -> bool
    requires some { 1 ≤ totals.now.weight }
    requires range { IsInRange totals.now }
    requires not_below { pos 0 ≤ℤ dot (pull_of totals.now) (vector second.now first.now) }
    ensures { IsTrue result ↔ (IsFraction size.now × SameValue size.now (product_ratio totals.now first.now second.now)) }
{
    let ratio = totals.size(first, second);
    size.num() == ratio.num() && size.den() == ratio.den()
}

/// Whether this is the weighted mean of the first points.
fn is_first_mean(from: &Homog3, totals: &PairSums) -> bool
    requires some { 1 ≤ totals.now.weight }
    requires range { IsInRange totals.now }
    ensures { IsTrue result ↔ (IsSpaceRatio from.now × SamePlace from.now (mean_of totals.now.weight totals.now.first)) }
{
    *from == totals.first_mean()
}

/// Whether this is the weighted mean of the second points.
fn is_second_mean(to: &Homog3, totals: &PairSums) -> bool
    requires some { 1 ≤ totals.now.weight }
    requires range { IsInRange totals.now }
    ensures { IsTrue result ↔ (IsSpaceRatio to.now × SamePlace to.now (mean_of totals.now.weight totals.now.second)) }
{
    *to == totals.second_mean()
}

/// Whether this is the weighted sum of the differences over the common factor of its entries, or 0 where it is 0.
fn is_direction(direction: Dir3, totals: &PairSums) -> bool
    requires { IsInRange totals.now }
    ensures { IsTrue result ↔ (AreNumbers (space_vector_of direction) × IsDirectionOf (pull_of totals.now) (space_vector_of direction)) }
{
    direction == totals.direction()
}

// ---- the points

/// Whether no point of the first set is less far along the weighted sum than this one.
fn is_none_before(cloud: Cloud3<'_>, first: &Point3, totals: &PairSums) -> bool
    requires { IsInRange totals.now }
    ensures { IsTrue result ↔ All (λ p. pos 0 ≤ℤ dot (pull_of totals.now) (vector first.now p)) (points_of cloud.entry) }
{
    for i in 0..cloud.len() {
        if is_against(totals, cloud.at(i), first) {
            return false;
        }
    }
    true
}

/// Whether no point of the second set is farther along the weighted sum than this one.
fn is_none_beyond(cloud: Cloud3<'_>, second: &Point3, totals: &PairSums) -> bool
    requires { IsInRange totals.now }
    ensures { IsTrue result ↔ All (λ q. pos 0 ≤ℤ dot (pull_of totals.now) (vector q second.now)) (points_of cloud.entry) }
{
    for i in 0..cloud.len() {
        if is_against(totals, second, cloud.at(i)) {
            return false;
        }
    }
    true
}

/// Whether the vector from q to p points against the weighted sum.
fn is_against(totals: &PairSums, p: &Point3, q: &Point3) -> bool
    requires { IsInRange totals.now }
    ensures { IsTrue result ↔ (dot (pull_of totals.now) (vector q.now p.now) <ℤ pos 0) }
{
    totals.product(p, q) < 0
}
