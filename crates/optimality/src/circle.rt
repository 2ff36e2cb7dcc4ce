//! Circles: weights on the supports show that no circle around the points is smaller.

ghost use Rattle.optimality.specs.Laws.{PassingCirclesAreBest};

/// A circle that passes is the smallest around its points.
pub fn passing_circles_are_best()
    ensures { PassingCirclesAreBest }
{}
