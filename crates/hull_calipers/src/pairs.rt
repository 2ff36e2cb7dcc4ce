//! Two calipers at opposite sides.
ghost use Rattle.std.specs.Prelude.{◌≡◌, ◌+◌, ◌*◌, ◌<◌};
ghost use Rattle.hull_calipers.specs.CornerLists.{corners_in};
ghost use Rattle.hull_calipers.specs.ExtremeCorners.{next_side};
ghost use Rattle.hull_calipers.specs.CaliperMoves.{IsLimited, ArePair, PairFollows};
ghost use Rattle.hull_calipers.specs.NextDirections.{IsFirstOf};

use crate::calipers::Caliper;
use crate::corner_list::Corners;
use crate::directions::Direction;
use crate::sides::Side;
use bounded_coords::Steps;
use std::sync::ledger::Ledger;

/// An antipodal pair: the calipers at a highest and a lowest corner, as seen from the side of the first.
#[derive(Clone, Copy)]
pub(crate) struct AntipodalPair {
    pub(crate) high: Caliper,
    pub(crate) low: Caliper,
}

impl AntipodalPair {
    /// At a side, the calipers at these advances.
    pub(crate) fn at<L: Ledger>(
        corners: &Corners<'_>,
        side: Side,
        high_at: u32,
        low_at: u32,
        steps: &mut Steps<L>,
    ) -> AntipodalPair
        requires high_at { high_at < 1000000 }
        requires low_at { low_at < 1000000 }
        ensures high_side { result.high.side ≡ side }
        ensures low_side { result.low.side ≡ next_side (next_side side) }
        ensures high_at { result.high.advance ≡ high_at }
        ensures low_at { result.low.advance ≡ low_at }
        ensures pair { ArePair (corners_in corners.now) result }
        ensures steps { steps.new ≡ steps.old + 4 }
    {
        let high = Caliper::at(corners, side, high_at, steps);
        let low = Caliper::at(corners, side.next().next(), low_at, steps);
        AntipodalPair { high, low }
    }

    /// The first direction at which one of the two corners gives way.
    pub(crate) fn next(self) -> Direction
        requires high { IsLimited self.high.next }
        requires low { IsLimited self.low.next }
        ensures { IsFirstOf self.high.next self.low.next result }
    {
        self.high.next.first(self.low.next)
    }

    /// The corners that are extreme from this direction on.
    pub(crate) fn follow<L: Ledger>(
        self,
        corners: &Corners<'_>,
        direction: Direction,
        steps: &mut Steps<L>,
    ) -> AntipodalPair
        requires pair { ArePair (corners_in corners.now) self }
        requires high { self.high.advance < 900000 }
        requires low { self.low.advance < 900000 }
        requires direction { IsLimited direction }
        ensures pair { ArePair (corners_in corners.now) result }
        ensures follows { PairFollows self direction result }
        ensures steps { steps.new + 2 * (self.high.advance + self.low.advance) ≡ steps.old + 2 * (result.high.advance + result.low.advance) }
    {
        let high = self.high.follow(corners, direction, steps);
        let low = self.low.follow(corners, direction, steps);
        AntipodalPair { high, low }
    }
}
