//! Parallelograms: a fan of directions with a chord for each shows that no parallelogram around the points has less area.

ghost use Rattle.optimality.specs.Laws.{PassingParallelogramsAreBest};

/// A parallelogram that passes has the least area around its points.
pub fn passing_parallelograms_are_best()
    ensures { PassingParallelogramsAreBest }
{}
