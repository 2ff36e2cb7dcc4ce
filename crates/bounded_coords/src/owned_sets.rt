//! The point sets of a file.
ghost use Rattle.std.specs.Prelude.{◌≡◌, ◌≢◌, ◌≤◌, []};
ghost use Rattle.bounds_model.specs.Asks.{scale_limit};
ghost use Rattle.bounded_coords.specs.Asked.{lent};

use crate::{Points2, Points3, Sets};
use std::marker::Model;

/// The point sets of a file, in file order, repeats kept: one set of the plane, which may be empty, or one or two sets of
/// space, which are not. Their coordinates are whole numbers of units, of which 1 to 1000 make a whole one: that is their
/// scale. Contracts see them as the point file of the model.
#[derive(Drop)]
pub struct OwnedSets {
    sets: Owned,
    scale: u16,
}

#[derive(Drop)]
enum Owned {
    Plane(Points2),
    Space(Points3),
    Two(Points3, Points3),
}

impl Model for OwnedSets {
    ghost use Rattle.std.specs.Prelude.{◌≤◌};
    ghost use Rattle.bounds_model.specs.Asks.{PointFile, scale_limit};

    ghost Value = { PointFile };

    ghost use Rattle.bounded_coords.specs.Owned.{owned, HasSpacePoints};

    ghost view = { λ s. record { scale = s.scale; sets = owned s.sets } };

    ghost invariant = { λ s. HasSpacePoints s.sets × (1 ≤ s.scale) × (s.scale ≤ scale_limit) };
}

impl OwnedSets {
    ghost use Rattle.bounds_model.specs.Asks.{space as one_set_of_space, two as two_sets_of_space, unscaled};
    ghost use Rattle.bounded_coords.specs.Owned.{set_of_plane};

    /// The one set of the plane with these points, at scale 1.
    pub fn plane(points: Points2) -> OwnedSets
        ensures { result ≡ unscaled (set_of_plane points) }
    {
        OwnedSets {
            sets: Owned::Plane(points),
            scale: 1,
        }
    }

    /// The one set of space with these points, at scale 1.
    pub fn space(points: Points3) -> OwnedSets
        requires { points ≢ [] }
        ensures { result ≡ unscaled (one_set_of_space points) }
    {
        OwnedSets {
            sets: Owned::Space(points),
            scale: 1,
        }
    }

    /// The two sets of space with these points, at scale 1.
    pub fn two(p: Points3, q: Points3) -> OwnedSets
        requires first { p ≢ [] }
        requires second { q ≢ [] }
        ensures { result ≡ unscaled (two_sets_of_space p q) }
    {
        OwnedSets {
            sets: Owned::Two(p, q),
            scale: 1,
        }
    }

    /// The same sets at this scale.
    pub fn with_scale(self, scale: u16) -> OwnedSets
        requires from { 1 ≤ scale }
        requires to { scale ≤ scale_limit }
        ensures { result ≡ record { scale = scale; sets = self.sets } }
    {
        OwnedSets {
            sets: self.sets,
            scale,
        }
    }

    /// How many units of the coordinates make a whole one.
    pub fn scale(&self) -> u16
        ensures value { result ≡ self.now.scale }
        ensures from { 1 ≤ result }
        ensures to { result ≤ scale_limit }
    {
        self.scale
    }

    /// The sets, borrowed: `Bare` where there are no points.
    pub fn view(&self) -> Sets<'_>
        ensures { lent result ≡ self.now.sets }
    {
        match &self.sets {
            Owned::Plane(points) => match points.cloud() {
                Some(cloud) => Sets::Plane(cloud),
                None => Sets::Bare,
            },
            Owned::Space(points) => Sets::Space(points.cloud().unwrap()),
            Owned::Two(p, q) => Sets::Two(p.cloud().unwrap(), q.cloud().unwrap()),
        }
    }
}
