//! Sums over the supports of a distance.
ghost use Rattle.std.specs.Prelude.{◌≤◌, ◌≤ℤ◌, ◌^◌, pos, All};
ghost use Rattle.bounds_model.specs.AnnulusAnswer.{pair_sum};
ghost use Rattle.corral.specs.Items.{first_points, second_points};
ghost use Rattle.corral.specs.Supported.{items_of};
ghost use Rattle.pair_sums.specs.Sums.{IsInRange, AreSums};
ghost use Rattle.polytope_distance.specs.Supports.{weighted_pairs};

use corral::Support;
use kernel_laws::Space;
use pair_sums::PairSums;

/// The sums over all supports.
pub(crate) fn sums_over(support: &Support<'_, Space>) -> PairSums
    requires weights { All (λ pair. pos 1 ≤ℤ pair.weight) (weighted_pairs support.now) }
    requires limit { pair_sum (weighted_pairs support.now) ≤ℤ pos (2 ^ 66) }
    ensures some { 1 ≤ result.weight }
    ensures range { IsInRange result }
    ensures sums { AreSums (first_points (items_of support.now)) (second_points (items_of support.now)) (weighted_pairs support.now) result }
{
    let mut sums = PairSums::none();
    'add: for i in 0..support.len() {
        sums = sums.with(support.weight(i), support.first(i), support.second(i));
    }
    sums
}
