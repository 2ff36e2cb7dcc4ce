//! Pairs of points, listed with weights.
ghost use Rattle.std.specs.Prelude.{◌≡◌, ◌++◌, ◌+◌, ◌<◌, ◌≤◌, map, length};
ghost use Rattle.answers.specs.Answers.{pair_of};
ghost use Rattle.pair_weights.specs.WeightedLists.{listed};

use answers::WeightedPair;
use arrayvec::ArrayVec;

/// Lists the pair of two numbers, if it has a weight.
pub fn push_weighted<const N: usize>(
    pairs: &mut ArrayVec<WeightedPair, N>,
    first: u32,
    second: u32,
    weight: i64,
)
    requires { length pairs.old.items < N }
    ensures items { map pair_of pairs.new.items ≡ map pair_of pairs.old.items ++ listed first second weight }
    ensures count { length pairs.new.items ≤ length pairs.old.items + 1 }
{
    if weight > 0 {
        pairs.push(WeightedPair {
            first,
            second,
            weight: weight as u128,
        });
    }
}
