//! The supports as an answer lists them.
ghost use Rattle.std.specs.Prelude.{◌≡◌, map};
ghost use Rattle.answers.specs.Answers.{pair_of};
ghost use Rattle.polytope_distance.specs.Supports.{weighted_pairs};

use answers::WeightedPair;
use arrayvec::ArrayVec;
use corral::Support;
use kernel_laws::Space;

/// The pairs of points that the supports name, with their weights.
pub(crate) fn listed(support: &Support<'_, Space>) -> ArrayVec<WeightedPair, 4>
    ensures { map pair_of result.items ≡ weighted_pairs support.now }
{
    let mut pairs = ArrayVec::new();
    'list: for i in 0..support.len() {
        let id = support.id(i);
        pairs.push(WeightedPair {
            first: id.first,
            second: id.second,
            weight: support.weight(i),
        });
    }
    pairs
}
