//! Polygons with few corners: potentials show that no choice of the hull's corners has more area.

ghost use Rattle.optimality.specs.Laws.{PassingKgonsAreBest, PassingKgonsAreFirst};
ghost use Rattle.optimality.specs.Laws.{FirstKgonsAreUnique};

/// A polygon that passes lists the hull's corners, and has the greatest area of all with at most k of them.
pub fn passing_kgons_are_best()
    ensures { PassingKgonsAreBest }
{}

/// A polygon that passes, where three corners or more are allowed, is the first of those of greatest area: its list of positions comes before
/// those of all others.
pub fn passing_kgons_are_first()
    ensures { PassingKgonsAreFirst }
{}

/// There is one first polygon: two that are both first have the same positions.
pub fn first_kgons_are_unique()
    ensures { FirstKgonsAreUnique }
{}
