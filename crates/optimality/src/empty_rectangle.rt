//! Empty rectangles: the gaps between two heights show that no empty rectangle in the frame has more area.

ghost use Rattle.optimality.specs.Laws.{PassingEmptyRectanglesAreBest};

/// An empty rectangle that passes has the greatest area in its frame.
pub fn passing_empty_rectangles_are_best()
    ensures { PassingEmptyRectanglesAreBest }
{}
