//! Rectangles: a fan of directions shows that no rectangle around the points has less area.

ghost use Rattle.optimality.specs.Laws.{PassingRectanglesAreBest, PassingRectanglesAreFirst};
ghost use Rattle.optimality.specs.Laws.{FirstRectanglesAreUnique};

/// A rectangle that passes has the least area around its points, in any direction.
pub fn passing_rectangles_are_best()
    ensures { PassingRectanglesAreBest }
{}

/// A rectangle that passes is the first of those of least area: its direction, in lowest terms, comes before those of all others, from
/// the east up to the north.
pub fn passing_rectangles_are_first()
    ensures { PassingRectanglesAreFirst }
{}

/// There is one first rectangle: two that are both first have the same direction and the same bounds.
pub fn first_rectangles_are_unique()
    ensures { FirstRectanglesAreUnique }
{}
