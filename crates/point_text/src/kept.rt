//! The sets of a text as far as it was read.
ghost use Rattle.std.specs.Prelude.{◌≤◌};
ghost use Rattle.bounds_model.specs.PointText.{most_points};

use bounded_coords::{Points, PushFault};
use std::alloc::Global;

/// The most points of a set.
const MOST_POINTS: u32 = 10_000;

/// The sets that were read: the first two with their points, and of a later one how many points it
/// has so far.
#[derive(Drop)]
pub(crate) struct KeptSets<P> {
    pub(crate) first: Points<P>,
    pub(crate) second: Points<P>,
    pub(crate) count: u32,
    later: u32,
    ghost begun: { 1 ≤ count },
    ghost limited: { later ≤ most_points },
}

impl<P: Copy> KeptSets<P> {
    ghost use Rattle.std.specs.Prelude.{◌≡◌, ◌↔◌, ◌+◌, ◌^◌, ◌<◌, List, [], ◌∷◌, ◌++◌, length, OnOk, Err};
    ghost use Rattle.bounded_coords.specs.declared.points.PushFault.TheVariants.{Full};
    ghost use Rattle.bounds_model.specs.PointText.{last_set, most_points};
    ghost use Rattle.point_text.specs.Kept.{Keeps, with_point};

    /// One set without points.
    pub(crate) fn new(alloc: Global) -> KeptSets<P>
        ensures { Keeps result ([] ∷ []) }
    {
        KeptSets {
            first: Points::new(alloc),
            second: Points::new(alloc),
            count: 1,
            later: 0,
        }
    }

    /// Ends the last set and begins another.
    pub(crate) fn end_set(&mut self)
        requires { self.old.count + 1 < 2 ^ 32 }
        ensures sets { (sets : List (List P)) → Keeps self.old sets → Keeps self.new (sets ++ [] ∷ []) }
        ensures count { self.new.count ≡ self.old.count + 1 }
    {
        self.count += 1;
        self.later = 0;
    }

    /// Adds a point to the last set.
    pub(crate) fn add(&mut self, p: P) -> Result<(), PushFault>
        ensures sets { OnOk result ((sets : List (List P)) → Keeps self.old sets → Keeps self.new (with_point p sets)) }
        ensures count { self.new.count ≡ self.old.count }
        ensures full { (sets : List (List P)) → Keeps self.old sets → (result ≡ Err Full) ↔ (length (last_set sets) ≡ most_points) }
    {
        match self.count {
            1 => self.first.push(p),
            2 => self.second.push(p),
            _ if self.later == MOST_POINTS => Err(PushFault::Full),
            _ => {
                self.later += 1;
                Ok(())
            }
        }
    }
}
