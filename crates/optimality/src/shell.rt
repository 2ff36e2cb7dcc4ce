//! Shells: balanced pairs of points show that no shell around the points has a smaller difference of squared radii.

ghost use Rattle.optimality.specs.Laws.{PassingShellsAreBest};

/// A shell that passes has the least difference of squared radii around its points.
pub fn passing_shells_are_best()
    ensures { PassingShellsAreBest }
{}
