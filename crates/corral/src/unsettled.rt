//! Supports that are exchanged for greater ones.
ghost use Rattle.std.specs.Prelude.{◌≡◌, ◌↔◌, ◌≤ℤ◌, pos, [], ◌∷◌, All, IsTrue};
ghost use Rattle.bounds_model.specs.Slacks.{slack, IsLow, value};
ghost use Rattle.exact_fractions.specs.Order.{IsBelow};
ghost use Rattle.kernel_laws.specs.Vectors.{vector_of};
ghost use Rattle.kernel_laws.specs.Limits.{IsDifference};
ghost use Rattle.kernel_laws.specs.Solutions.{AreItems};
ghost use Rattle.corral.specs.Parts.{IsPart};
ghost use Rattle.corral.specs.Items.{IsItem, item, square_of};
ghost use Rattle.corral.specs.WeightedItems.{AreSupportItems, AreSupportItems-prop, names, weighted_items};
ghost use Rattle.corral.specs.Balances.{IsBalance, vectors, candidate_names, AreCandidates, IsNear};

use crate::items::{Id, Items};
use crate::least_slack::{difference_of_least_slack, point_of_least_slack};
use crate::search::{Balance, Candidate, search};
use crate::sums::Moments;
use crate::support::{Support, WeightedItem};
use arrayvec::ArrayVec;
use kernel_laws::{Kernel, Potential};
use std::marker::PhantomData;

/// Supports on the way to those that settle all items: 1 to DIM + 1 affinely independent items with weights of at least 1,
/// under which they have one slack.
#[derive(Drop)]
pub struct Corral<'a, K: Kernel, T: Potential> {
    kernel: K,
    items: Items<'a, K>,
    balance: Balance,
    slack: PhantomData<T>,
    ghost suited: { T.SQUARE ≡ square_of items },
    ghost members: { AreSupportItems K.DIM items balance.members.items } by { AreSupportItems-prop K.DIM items balance.members.items },
    ghost balanced: { IsBalance K.DIM T.SQUARE (weighted_items K.place items balance.members.items) balance },
}

impl<'a, K: Kernel, T: Potential> Corral<'a, K, T> {
    ghost use Rattle.corral.specs.Corrals.{all_items, members_in, supports_in};
    ghost use Rattle.corral.specs.Supported.{items_of, supports_of};

    /// The one item with the weight 1.
    pub fn start(kernel: K, items: Items<'a, K>, id: Id) -> Self
        requires item { IsItem items id }
        requires suited { T.SQUARE ≡ square_of items }
        ensures kernel { result.kernel ≡ kernel }
        ensures items { all_items result ≡ items.entry }
        ensures support { members_in result ≡ record { id = id; weight = 1 } ∷ [] }
    {
        let vector = items.vector(&kernel, id);
        let moments = Moments::none().with(1, vector);
        let level = moments.slack::<K, T>(&kernel, vector);
        let mut members = ArrayVec::new();
        members.push(WeightedItem { id, weight: 1 });
        Corral {
            kernel,
            items,
            balance: Balance {
                members,
                moments,
                level,
            },
            slack: PhantomData,
        }
    }

    /// An item of least slack. This is one pass over the points of each cloud.
    pub fn lowest(&self) -> Id
        ensures item { IsItem (all_items self.now) result }
        ensures least { (other : _) → IsItem (all_items self.now) other
            → slack T.SQUARE (supports_in K.place self.now) (item K.place (all_items self.now) result) ≤ℤ slack T.SQUARE
            (supports_in K.place self.now) (item K.place (all_items self.now) other) }
    {
        match self.items {
            Items::Points(cloud) => {
                point_of_least_slack::<K, T>(&self.kernel, cloud, self.balance.moments)
            }
            Items::Differences(p, q) => {
                difference_of_least_slack::<K, T>(&self.kernel, p, q, self.balance.moments)
            }
        }
    }

    /// Whether an item's slack is below that of the supports.
    pub fn is_low(&self, id: Id) -> bool
        requires { IsItem (all_items self.now) id }
        ensures { IsTrue result ↔ IsLow T.SQUARE (supports_in K.place self.now) (item K.place (all_items self.now) id) }
    {
        let vector = self.items.vector(&self.kernel, id);
        self.balance.moments.slack::<K, T>(&self.kernel, vector) < self.balance.level
    }

    /// Takes a low item in: it keeps supports among this item and the old ones under which none of these is low.
    pub fn exchange(&mut self, id: Id)
        requires item { IsItem (all_items self.old) id }
        requires low { IsLow T.SQUARE (supports_in K.place self.old) (item K.place (all_items self.old) id) }
        ensures kernel { self.new.kernel ≡ self.old.kernel }
        ensures items { all_items self.new ≡ all_items self.old }
        ensures part { IsPart (names (members_in self.new)) (id ∷ names (members_in self.old)) }
        ensures none_low { All (λ other. ¬ IsLow T.SQUARE (supports_in K.place self.new) (item K.place (all_items self.new) other))
            (id ∷ names (members_in self.old)) }
        ensures risen { IsBelow (value T.SQUARE (supports_in K.place self.old)) (value T.SQUARE (supports_in K.place self.new)) }
    {
        let all = self.candidates(id);
        let mut chosen = ArrayVec::new();
        match search::<K, T>(&self.kernel, all.as_slice(), &mut chosen, all.as_slice()) {
            Some(balance) => self.balance = balance,
            None => unreachable!(),
        }
    }

    /// The item of this name, and the supports.
    fn candidates(&self, id: Id) -> ArrayVec<Candidate, 5>
        requires { IsItem (all_items self.now) id }
        ensures names { candidate_names result.items ≡ id ∷ names (members_in self.now) }
        ensures vectors { AreCandidates K.place (all_items self.now) result.items }
        ensures items { AreItems T.SQUARE K.DIM (vectors result.items) }
    {
        let mut all = ArrayVec::new();
        all.push(self.candidate(id));
        'fill: for support in self.balance.members.as_slice() {
            all.push(self.candidate(support.id));
        }
        self.near_pairs(all.as_slice());
        all
    }

    /// Tells of some candidates that no two of them are farther apart than `solve` takes; it has nothing to do.
    fn near_pairs(&self, candidates: &[Candidate])
        requires { All (λ c. IsItem (all_items self.now) c.id) candidates.now }
        ensures { T.SQUARE ≡ pos 1 → All (λ a. All (λ b. IsNear K.DIM K.place (all_items self.now) a.id b.id) candidates.now) candidates.now }
    {
        'pair: for a in candidates {
            self.near_all(a.id, candidates);
        }
    }

    /// Tells of an item and some candidates that none of them is farther from it than `solve` takes; it has nothing to do.
    fn near_all(&self, id: Id, candidates: &[Candidate])
        requires item { IsItem (all_items self.now) id }
        requires items { All (λ c. IsItem (all_items self.now) c.id) candidates.now }
        ensures { T.SQUARE ≡ pos 1 → All (λ c. IsNear K.DIM K.place (all_items self.now) id c.id) candidates.now }
    {
        if let Items::Points(cloud) = self.items {
            'tell: for candidate in candidates {
                let _apart = self
                    .kernel
                    .diff(cloud.at(id.first), cloud.at(candidate.id.first));
            }
        }
    }

    /// An item with its vector.
    fn candidate(&self, id: Id) -> Candidate
        requires { IsItem (all_items self.now) id }
        ensures id { result.id ≡ id }
        ensures vector { vector_of result.vector ≡ item K.place (all_items self.now) id }
        ensures difference { IsDifference K.DIM (vector_of result.vector) }
    {
        Candidate {
            id,
            vector: self.items.vector(&self.kernel, id),
        }
    }

    /// The supports as they stand.
    pub(crate) fn into_support(self) -> Support<'a, K>
        ensures items { items_of result ≡ all_items self.entry }
        ensures supports { supports_of result ≡ members_in self.entry }
    {
        Support::new(self.items, self.balance.members)
    }
}
