//! Distances: weights on pairs of points show that no two weighted means of the sets are closer.

ghost use Rattle.optimality.specs.Laws.{PassingDistancesAreBest};

/// A distance that passes is the least between weighted means of the two sets.
pub fn passing_distances_are_best()
    ensures { PassingDistancesAreBest }
{}
