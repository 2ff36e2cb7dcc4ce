//! The items that supports are chosen from.
ghost use Rattle.std.specs.Prelude.{⊤, ◌≡◌, slice_get, Some};
ghost use Rattle.kernel_laws.specs.Vectors.{vector_of};
ghost use Rattle.kernel_laws.specs.Limits.{IsDifference};

use bounded_coords::Cloud;
use kernel_laws::{Kernel, Vector};
use std::alloc::AllocError;

/// The name of an item: the number of its point, twice, or the numbers of the two points of a difference.
#[derive(Clone, Copy, Debug, Default, PartialEq, Eq)]
pub struct Id {
    pub first: u32,
    pub second: u32,
}

/// The vectors that slacks are asked of.
pub enum Items<'a, K: Kernel> {
    /// Each point as seen from point 0: item (i, i) is the vector from point 0 to point i.
    Points(Cloud<'a, K::P>),
    /// The differences of two clouds p and q: item (i, j) is the vector from point j of q to point i of p.
    Differences(Cloud<'a, K::P>, Cloud<'a, K::P>),
}

impl<'a, K: Kernel> Clone for Items<'a, K> {
    ghost is_clone = { λ x y. y ≡ x };

    ghost is_infallible = { λ _. ⊤ };

    fn clone(&self) -> Result<Self, AllocError> {
        Ok(*self)
    }
}

impl<'a, K: Kernel> Copy for Items<'a, K> {}

impl<'a, K: Kernel> Items<'a, K> {
    ghost use Rattle.corral.specs.Items.{IsItem, item, first_points, second_points};

    /// The item of this name.
    pub(crate) fn vector(self, kernel: &K, id: Id) -> Vector
        requires { IsItem self id }
        ensures value { vector_of result ≡ item K.place self.entry id }
        ensures difference { IsDifference K.DIM (vector_of result) }
    {
        match self {
            Items::Points(cloud) => kernel.diff(cloud.at(0), cloud.at(id.first)),
            Items::Differences(p, q) => kernel.diff(q.at(id.second), p.at(id.first)),
        }
    }

    /// The point of p that the item names.
    pub(crate) fn first(self, id: Id) -> &'a K::P
        requires { IsItem self id }
        ensures { slice_get (first_points self.entry) id.first ≡ Some result.now }
    {
        match self {
            Items::Points(cloud) => cloud.at(id.first),
            Items::Differences(p, _) => p.at(id.first),
        }
    }

    /// The point of q that the item names.
    pub(crate) fn second(self, id: Id) -> &'a K::P
        requires { IsItem self id }
        ensures { slice_get (second_points self.entry) id.second ≡ Some result.now }
    {
        match self {
            Items::Points(cloud) => cloud.at(id.second),
            Items::Differences(_, q) => q.at(id.second),
        }
    }
}
