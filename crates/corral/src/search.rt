//! The part of a few items whose supports settle them.
ghost use Rattle.std.specs.Prelude.{◌≡◌, ◌↔◌, pos, ◌^◌, ◌≤◌, ◌≤ℤ◌, ◌++◌, [], All, length, map, take, IsNone, IfSome, IsTrue};
ghost use Rattle.integers.specs.Total.{total};
ghost use Rattle.kernel_laws.specs.Vectors.{vectors_of};
ghost use Rattle.kernel_laws.specs.Limits.{IsVectorWithin, difference_limit};
ghost use Rattle.kernel_laws.specs.Solutions.{AreItems, weighted};
ghost use Rattle.corral.specs.Parts.{IsPart};
ghost use Rattle.corral.specs.Supports.{IsRefuted};
ghost use Rattle.corral.specs.WeightedItems.{names, weights as weights_of};
ghost use Rattle.corral.specs.Moments.{AreMoments, AreWithin, slack_at};
ghost use Rattle.corral.specs.Balances.{vectors as vectors_in, candidate_names, IsFound, AreRefuted};

use crate::items::Id;
use crate::sums::Moments;
use crate::support::WeightedItem;
use arrayvec::ArrayVec;
use kernel_laws::{Kernel, Potential, Solved, Vector};

/// An item that may be a support.
#[derive(Clone, Copy, Debug)]
pub(crate) struct Candidate {
    pub(crate) id: Id,
    pub(crate) vector: Vector,
}

impl Default for Candidate {
    ghost use Rattle.std.specs.Prelude.{◌≡◌, pos};

    ghost is_default = { λ c. c ≡ record { id = record { first = 0; second = 0 }; vector = record { x = pos 0; y = pos 0; z = pos 0 } } };

    /// The zero vector.
    fn default() -> Self {
        Candidate {
            id: Id {
                first: 0,
                second: 0,
            },
            vector: Vector { x: 0, y: 0, z: 0 },
        }
    }
}

/// Items with weights under which they have one slack, and what slacks are computed from.
#[derive(Drop)]
pub(crate) struct Balance {
    pub(crate) members: ArrayVec<WeightedItem, 4>,
    pub(crate) moments: Moments,
    /// The slack of each of the items.
    pub(crate) level: i128,
}

/// The first part of some candidates whose supports settle them all, among the parts that begin with the chosen ones. Those
/// with an item come before those without it.
pub(crate) fn search<K: Kernel, T: Potential>(
    kernel: &K,
    all: &[Candidate],
    chosen: &mut ArrayVec<Candidate, 5>,
    rest: &[Candidate],
) -> Option<Balance>
    requires all { AreItems T.SQUARE K.DIM (vectors_in all.now) }
    requires chosen { IsPart (chosen.old.items ++ rest.now) all.now }
    ensures found { IfSome result (λ b. (part : _) × IsFound K.DIM T.SQUARE all.now part b) }
    ensures none { IsNone result → AreRefuted T.SQUARE all.now chosen.old.items rest.now }
    ensures same { chosen.new.items ≡ chosen.old.items }
{
    match rest {
        [] => settled::<K, T>(kernel, all, chosen.as_slice()),
        [next, rest @ ..] => {
            // The new item stands first, and one of its parts always settles: so parts without it are not reached.
            chosen.push(*next);
            let with = search::<K, T>(kernel, all, chosen, rest);
            chosen.pop();
            if with.is_some() {
                return with;
            }
            search::<K, T>(kernel, all, chosen, rest)
        }
    }
}

/// The supports on a whole part, where it has some that settle all candidates.
fn settled<K: Kernel, T: Potential>(
    kernel: &K,
    all: &[Candidate],
    part: &[Candidate],
) -> Option<Balance>
    requires all { AreItems T.SQUARE K.DIM (vectors_in all.now) }
    requires part { IsPart part.now all.now }
    ensures found { IfSome result (λ b. IsFound K.DIM T.SQUARE all.now part.now b) }
    ensures none { IsNone result → 1 ≤ length part.now → IsRefuted T.SQUARE (vectors_in all.now) (vectors_in part.now) }
{
    if part.is_empty() {
        return None;
    }
    let padded = vectors(part);
    let vectors = &padded[..part.len()];
    let Solved::Weights(solution) = kernel.solve::<T>(vectors) else {
        return None;
    };
    let weights = solution.as_slice();
    if !are_positive(weights) {
        return None;
    }
    let moments = moments(weights, vectors);
    let level = moments.slack::<K, T>(kernel, vectors[0]);
    // Positive weights are not enough: an item that was left out may be low under them.
    if !are_above::<K, T>(kernel, all, moments, level) {
        return None;
    }
    Some(Balance {
        members: weighted(part, weights),
        moments,
        level,
    })
}

/// Whether all weights are at least 1.
fn are_positive(weights: &[i128]) -> bool
    ensures { IsTrue result ↔ All (λ w. pos 1 ≤ℤ w) weights.now }
{
    weights.iter().all(|w| *w >= 1)
}

/// The vectors of a part, and zeros after them.
fn vectors(part: &[Candidate]) -> [Vector; 5]
    requires { length part.now ≤ 5 }
    ensures { take (length part.now) result ≡ map (λ c. c.vector) part.now }
{
    let mut vectors = [Vector { x: 0, y: 0, z: 0 }; 5];
    for i in 0..part.len() {
        vectors[i] = part[i].vector;
    }
    vectors
}

/// The moments of weighted vectors.
fn moments(weights: &[i128], vectors: &[Vector]) -> Moments
    requires as_many { length weights.now ≡ length vectors.now }
    requires some { All (λ w. pos 1 ≤ℤ w) weights.now }
    requires limit { total (λ w. w) weights.now ≤ℤ pos (2 ^ 92) }
    requires near { All (IsVectorWithin 400000) (vectors_of vectors.now) }
    ensures { AreMoments (weighted weights.now (vectors_of vectors.now)) result }
{
    match weights {
        [] => Moments::none(),
        [weight, rest @ ..] => moments(rest, &vectors[1..]).with(*weight, vectors[0]),
    }
}

/// Whether no candidate has a slack below this one.
fn are_above<K: Kernel, T: Potential>(
    kernel: &K,
    all: &[Candidate],
    moments: Moments,
    level: i128,
) -> bool
    requires within { AreWithin T.SQUARE K.DIM moments }
    requires vectors { All (IsVectorWithin (difference_limit K.DIM)) (vectors_in all.now) }
    ensures { IsTrue result ↔ All (λ v. level ≤ℤ slack_at T.SQUARE moments v) (vectors_in all.now) }
{
    for candidate in all {
        if moments.slack::<K, T>(kernel, candidate.vector) < level {
            return false;
        }
    }
    true
}

/// The items of a part with their weights.
fn weighted(part: &[Candidate], weights: &[i128]) -> ArrayVec<WeightedItem, 4>
    requires few { length part.now ≤ 4 }
    requires as_many { length weights.now ≡ length part.now }
    requires some { All (λ w. pos 1 ≤ℤ w) weights.now }
    ensures names { names result.items ≡ candidate_names part.now }
    ensures weights { weights_of result.items ≡ weights.now }
{
    let mut members = ArrayVec::new();
    for i in 0..part.len() {
        members.push(WeightedItem {
            id: part[i].id,
            weight: weights[i] as u128,
        });
    }
    members
}
