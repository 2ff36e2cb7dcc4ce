//! Answers of every kind.

ghost use Rattle.optimality.specs.Laws.{AllPassingAnswersAreBest, AllPassingAnswersAreFirst};

/// An answer of any kind that passes is best: its object fits the points, its size is printed in lowest terms, and no object
/// of the kind that fits is better.
pub fn passing_answers_are_best()
    ensures { AllPassingAnswersAreBest }
{}

/// A strip, a rectangle or a polygon that passes is the first of all best ones.
pub fn passing_answers_are_first()
    ensures { AllPassingAnswersAreFirst }
{}
