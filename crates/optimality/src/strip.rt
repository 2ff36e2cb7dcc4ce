//! Strips: a fan of directions shows that no strip around the points is thinner.

ghost use Rattle.optimality.specs.Laws.{PassingStripsAreBest, PassingStripsAreFirst};
ghost use Rattle.optimality.specs.Laws.{FirstStripsAreUnique};

/// A strip that passes is the thinnest around its points.
pub fn passing_strips_are_best()
    ensures { PassingStripsAreBest }
{}

/// A strip that passes is the first of the thinnest: its normal, in lowest terms, comes before those of all others, from the east up
/// to the west.
pub fn passing_strips_are_first()
    ensures { PassingStripsAreFirst }
{}

/// There is one first strip: two that are both first have the same normal and the same bounds.
pub fn first_strips_are_unique()
    ensures { FirstStripsAreUnique }
{}
