//! Annuli: balanced pairs of points show that no annulus around the points has a smaller difference of squared radii.

ghost use Rattle.optimality.specs.Laws.{PassingAnnuliAreBest};

/// An annulus that passes has the least difference of squared radii around its points.
pub fn passing_annuli_are_best()
    ensures { PassingAnnuliAreBest }
{}
