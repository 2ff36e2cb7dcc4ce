//! Weighted items.
ghost use Rattle.std.specs.Prelude.{◌≡◌, ◌+◌, ◌<◌, ◌≤◌, length, map, slice_get, Some, IsSomeAnd};
ghost use Rattle.corral.specs.WeightedItems.{AreSupportItems, AreSupportItems-prop};

use crate::items::{Id, Items};
use arrayvec::ArrayVec;
use kernel_laws::Kernel;

/// An item and its weight.
#[derive(Clone, Copy, Debug, Default, PartialEq, Eq)]
pub(crate) struct WeightedItem {
    pub(crate) id: Id,
    pub(crate) weight: u128,
}

/// Supports: 1 to DIM + 1 items with weights, which determine a ball, or the distance of two hulls.
#[derive(Drop)]
pub struct Support<'a, K: Kernel> {
    items: Items<'a, K>,
    members: ArrayVec<WeightedItem, 4>,
    ghost are_members: { AreSupportItems K.DIM items members.items } by { AreSupportItems-prop K.DIM items members.items },
}

impl<'a, K: Kernel> Support<'a, K> {
    ghost use Rattle.corral.specs.Items.{first_points, second_points};
    ghost use Rattle.corral.specs.Supported.{items_of, supports_of};

    /// Supports among these items.
    pub(crate) fn new(items: Items<'a, K>, members: ArrayVec<WeightedItem, 4>) -> Self
        requires { AreSupportItems K.DIM items members.items }
        ensures items { items_of result ≡ items.entry }
        ensures supports { supports_of result ≡ members.items }
    {
        Support { items, members }
    }

    /// How many there are.
    pub fn len(&self) -> u32
        ensures count { result ≡ length (supports_of self.now) }
        ensures some { 1 ≤ result }
        ensures few { result ≤ K.DIM + 1 }
    {
        self.members.len() as u32
    }

    /// The name of support i.
    pub fn id(&self, i: u32) -> Id
        requires { i < length (supports_of self.now) }
        ensures { slice_get (map (λ s. s.id) (supports_of self.now)) i ≡ Some result }
    {
        self.members[i as usize].id
    }

    /// The weight of support i.
    pub fn weight(&self, i: u32) -> u128
        requires { i < length (supports_of self.now) }
        ensures { slice_get (map (λ s. s.weight) (supports_of self.now)) i ≡ Some result }
    {
        self.members[i as usize].weight
    }

    /// The point of support i, or the point of p where it is a difference.
    pub fn first(&self, i: u32) -> &'a K::P
        requires { i < length (supports_of self.now) }
        ensures { IsSomeAnd (slice_get (supports_of self.now) i) (λ s. slice_get (first_points (items_of self.now)) s.id.first ≡ Some result.now) }
    {
        self.items.first(self.members[i as usize].id)
    }

    /// The point of support i, or the point of q where it is a difference.
    pub fn second(&self, i: u32) -> &'a K::P
        requires { i < length (supports_of self.now) }
        ensures { IsSomeAnd (slice_get (supports_of self.now) i) (λ s. slice_get (second_points (items_of self.now)) s.id.second ≡ Some result.now) }
    {
        self.items.second(self.members[i as usize].id)
    }
}
