//! Furthest corners: no point is farther from a corner than some corner is, so that the corners show the diameter of all points.

ghost use Rattle.optimality.specs.Laws.{PassingAnswersAreFurthest, FurthestIsUnique};

/// An answer that passes names the first furthest corner of each corner of the hull, than which no point is farther, and its size is the
/// greatest squared distance of two points.
pub fn passing_answers_are_furthest()
    ensures { PassingAnswersAreFurthest }
{}

/// A corner of a hull has one first furthest corner: so there is one list of them.
pub fn furthest_is_unique()
    ensures { FurthestIsUnique }
{}
