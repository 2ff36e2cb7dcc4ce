//! Laws of the definitions.
ghost use Rattle.furthest_laws.specs.Laws.{CrossingPairsAreFarApart, FurthestCornersRise};

/// In four corners in turning order, if the last is at least as far from the first as the third is, it is farther from the second than
/// the third is.
pub fn crossing_pairs_are_far_apart()
    ensures { CrossingPairsAreFarApart }
{}

/// The first furthest corners, counted on around the hull, do not fall from a corner to a later one.
pub fn furthest_corners_rise()
    ensures { FurthestCornersRise }
{}
