//! Weighted pairs of points that are balanced and show a size.
ghost use Rattle.std.specs.Prelude.{◌≡◌, ◌↔◌, ◌+◌, ◌≤◌, ◌^◌, ℕ, ◌+ℤ◌, ◌*ℤ◌, pos, length, map, All, IsTrue};
ghost use Rattle.integers.specs.Size.{Size};
ghost use Rattle.bounded_coords.specs.Clouds.{points_of};
ghost use Rattle.kernel_laws.specs.Vectors.{vector_of};
ghost use Rattle.kernel_laws.specs.Limits.{IsVectorWithin};
ghost use Rattle.answers.specs.Answers.{pair_of};
ghost use Rattle.ring_check.specs.Rings.{places_of, IsSmallPair, AddsPair, AreSmallSums, ArePairSums, ShowSize, SumsShowSize, square_limit};

use crate::centres::squared_length;
use crate::places::Place;
use crate::values::has_value;
use answers::WeightedPair;
use bounded_coords::Cloud;
use exact_fractions::Frac;
use kernel_laws::Vector;

/// Whether the pairs are of the points, each with a weight and all together within a limit, balanced, and with the size as the mean of
/// their differences of squared lengths.
pub(crate) fn show_size<P: Place>(
    cloud: Cloud<'_, P>,
    pairs: &[WeightedPair],
    size: &Frac,
    limit: u128,
) -> bool
    requires few { length pairs.now ≤ 4 }
    requires limit { limit ≤ 2 ^ 50 }
    ensures { IsTrue result ↔ ShowSize limit (places_of P.place cloud.entry) size.now (map pair_of pairs.now) }
{
    if pairs.is_empty() {
        return false;
    }
    if !are_small_pairs(pairs, cloud.len(), limit) {
        return false;
    }
    let sums = PairSums::over(cloud, pairs);
    if sums.weight > limit {
        return false;
    }
    sums.show_size(size)
}

/// Whether each pair names two of so many points, and no weight is 0 or past a limit.
fn are_small_pairs(pairs: &[WeightedPair], count: u32, limit: u128) -> bool
    ensures { IsTrue result ↔ All (IsSmallPair limit count) pairs.now }
{
    pairs.iter().all(|pair| is_small_pair(pair, count, limit))
}

/// Whether the pair names two of so many points, and its weight is not 0 nor past a limit.
fn is_small_pair(pair: &WeightedPair, count: u32, limit: u128) -> bool
    ensures { IsTrue result ↔ IsSmallPair limit count pair.now }
{
    pair.first < count && pair.second < count && 1 <= pair.weight && pair.weight <= limit
}

/// Sums over weighted pairs of points.
#[derive(Clone, Copy)]
pub(crate) struct PairSums {
    /// Of the weights.
    pub(crate) weight: u128,
    /// Of the weighted differences of the first coordinates.
    pub(crate) x: i128,
    /// Of the weighted differences of the second coordinates.
    pub(crate) y: i128,
    /// Of the weighted differences of the third coordinates.
    pub(crate) z: i128,
    /// Of the weighted differences of the squared lengths.
    pub(crate) squared_length: i128,
}

impl PairSums {
    /// Over one to four pairs.
    fn over<P: Place>(cloud: Cloud<'_, P>, pairs: &[WeightedPair]) -> PairSums
        requires small { All (IsSmallPair (2 ^ 50) (length (points_of cloud))) pairs.now }
        requires few { length pairs.now ≤ 4 }
        ensures sums { ArePairSums (places_of P.place cloud.entry) (map pair_of pairs.now) result }
        ensures size { AreSmallSums 4 result }
    {
        let mut sums = PairSums {
            weight: 0,
            x: 0,
            y: 0,
            z: 0,
            squared_length: 0,
        };
        for pair in pairs {
            let p = cloud.at(pair.first).vector();
            let q = cloud.at(pair.second).vector();
            sums = sums.with(pair.weight, p, q);
        }
        sums
    }

    /// With a pair more, of these points.
    fn with(self, weight: u128, p: Vector, q: Vector) -> PairSums
        requires size { AreSmallSums 3 self }
        requires weight { weight ≤ 2 ^ 50 }
        requires first { IsVectorWithin 200000 (vector_of p) }
        requires second { IsVectorWithin 200000 (vector_of q) }
        ensures adds { AddsPair weight (vector_of p) (vector_of q) self result }
        ensures size { (count : ℕ) → AreSmallSums count self → AreSmallSums (count + 1) result }
    {
        PairSums {
            weight: self.weight + weight,
            x: plus(self.x, weight, p.x - q.x),
            y: plus(self.y, weight, p.y - q.y),
            z: plus(self.z, weight, p.z - q.z),
            squared_length: plus(
                self.squared_length,
                weight,
                squared_length(p) - squared_length(q),
            ),
        }
    }

    /// Whether the pairs are balanced, and the size is the mean of their differences of squared lengths.
    fn show_size(self, size: &Frac) -> bool
        requires sums { AreSmallSums 4 self }
        requires some { 1 ≤ self.weight }
        ensures { IsTrue result ↔ SumsShowSize size.now self }
    {
        if self.x != 0 {
            return false;
        }
        if self.y != 0 {
            return false;
        }
        if self.z != 0 {
            return false;
        }
        has_value(size, self.squared_length, self.weight as i128)
    }
}

/// A weighted sum, with one difference more.
fn plus(sum: i128, weight: u128, difference: i64) -> i128
    requires sum { Size (2 ^ 90) sum }
    requires weight { weight ≤ 2 ^ 50 }
    requires difference { Size square_limit difference }
    ensures { result ≡ sum +ℤ pos weight *ℤ difference }
{
    sum + weight as i128 * difference as i128
}
