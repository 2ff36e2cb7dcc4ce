//! Laws of the definitions.

ghost use Rattle.model_laws.specs.Laws.{PassingAnswersKeepRanges, FittingPointsSuit, PassingCornersAreCorners, PassingKgonsListCorners, CornersAreUnique, BestSizeIsUnique, OptimumIsUnique, BestSizeHasNoOrder, BestAnswersHaveNoOrder, PlainHalfFansAreFew, PlainQuarterFansAreFew, PlainHalfFansAreShort, PlainQuarterFansAreShort};

/// An answer that passes has all its numbers in their ranges.
pub fn passing_answers_keep_ranges()
    ensures { PassingAnswersKeepRanges }
{}

/// An answer fits only points of the kind that is asked of.
pub fn fitting_points_suit()
    ensures { FittingPointsSuit }
{}

/// The corners that a checker accepts are the corners of the hull.
pub fn passing_corners_are_corners()
    ensures { PassingCornersAreCorners }
{}

/// The corners that a passing polygon lists are the corners of the hull.
pub fn passing_kgons_list_corners()
    ensures { PassingKgonsListCorners }
{}

/// Points have at most one list of corners.
pub fn corners_are_unique()
    ensures { CornersAreUnique }
{}

/// Two best answers to one question on the same points have the same size.
pub fn best_size_is_unique()
    ensures { BestSizeIsUnique }
{}

/// The optimum is one fraction at most.
pub fn optimum_is_unique()
    ensures { OptimumIsUnique }
{}

/// The best size is the same for the points in another order.
pub fn best_size_has_no_order()
    ensures { BestSizeHasNoOrder }
{}

/// A best answer whose object is not given by numbers of points is best for the points in another order.
pub fn best_answers_have_no_order()
    ensures { BestAnswersHaveNoOrder }
{}

/// A plain fan over half a turn has at most three directions more than the hull has corners.
pub fn plain_half_fans_are_few()
    ensures { PlainHalfFansAreFew }
{}

/// A plain fan over a quarter turn has at most two directions more than the hull has corners.
pub fn plain_quarter_fans_are_few()
    ensures { PlainQuarterFansAreFew }
{}

/// A plain fan over half a turn keeps its directions within the checker's limit, where the corners are in bounds.
pub fn plain_half_fans_are_short()
    ensures { PlainHalfFansAreShort }
{}

/// A plain fan over a quarter turn keeps its directions within the checker's limit, where the corners are in bounds.
pub fn plain_quarter_fans_are_short()
    ensures { PlainQuarterFansAreShort }
{}
