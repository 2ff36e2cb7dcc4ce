//! Weighted pairs over the greatest common divisor of their weights.
ghost use Rattle.pair_weights.specs.CommonFactors.{HaveSomeWeight, IsCommonFactor, AreInLowestTerms};

use answers::WeightedPair;
use arrayvec::ArrayVec;
use exact_fractions::gcd;

/// The same pairs, without the common factor of their weights.
pub fn in_lowest_terms<const N: usize>(
    pairs: &ArrayVec<WeightedPair, N>,
) -> ArrayVec<WeightedPair, N>
    requires { HaveSomeWeight pairs.now.items }
    ensures { AreInLowestTerms pairs.now.items result.items }
{
    let factor = common_factor(pairs.as_slice());
    let mut lowest = ArrayVec::new();
    for pair in pairs.as_slice() {
        lowest.push(WeightedPair {
            first: pair.first,
            second: pair.second,
            weight: pair.weight / factor,
        });
    }
    lowest
}

/// The greatest common divisor of the weights.
fn common_factor(pairs: &[WeightedPair]) -> u128
    ensures { IsCommonFactor pairs.now result }
{
    let mut factor = 0;
    for pair in pairs {
        factor = gcd(factor, pair.weight);
    }
    factor
}
