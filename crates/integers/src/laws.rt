//! The main laws, each the contract of a function that does nothing: a crate that calls one has its law.

ghost use Rattle.integers.specs.OrderLaws.{SquaresInOrder, FactorCancels};
ghost use Rattle.integers.specs.SumLaws.{SumsAppend, SumsScale, SumsExchange, GreatestIsReached, LeastIsReached};
ghost use Rattle.integers.specs.FractionLaws.{DividesOtherFactor, LowestTermsAreUnique, FractionsLieApart, FloorsRise};
ghost use Rattle.integers.specs.GeometryLaws.{Lagrange, CauchySchwarz, ParallelAxisInPlane, ParallelAxisInSpace, Cone, InCircleIsSum, InSphereIsSum, CramerOfTwo, CramerOfThree};

/// Of numbers that are at least 0, the one with the smaller square is the smaller.
pub fn squares_in_order()
    ensures { SquaresInOrder }
{}

/// A factor above 0 can be left out on both sides of an order.
pub fn factor_cancels()
    ensures { FactorCancels }
{}

/// The sum over two lists in a row is the sum of both.
pub fn sums_append()
    ensures { SumsAppend }
{}

/// A common factor can be drawn out of a sum.
pub fn sums_scale()
    ensures { SumsScale }
{}

/// Two sums can be taken in either order.
pub fn sums_exchange()
    ensures { SumsExchange }
{}

/// The greatest value of a function over a list is that of one of the elements, and no element has a greater one.
pub fn greatest_is_reached()
    ensures { GreatestIsReached }
{}

/// The least value of a function over a list is that of one of the elements, and no element has a smaller one.
pub fn least_is_reached()
    ensures { LeastIsReached }
{}

/// A number that divides a product, and has no factor in common with one part, divides the other.
pub fn divides_other_factor()
    ensures { DividesOtherFactor }
{}

/// A fraction has one form in lowest terms.
pub fn lowest_terms_are_unique()
    ensures { LowestTermsAreUnique }
{}

/// Two different fractions with denominators of at most q differ by at least 1 / q².
pub fn fractions_lie_apart()
    ensures { FractionsLieApart }
{}

/// Where a fraction with a denominator of at most q rises, the whole part of q² times it does too.
pub fn floors_rise()
    ensures { FloorsRise }
{}

/// Lagrange's identity in the plane.
pub fn lagrange()
    ensures { Lagrange }
{}

/// Cauchy and Schwarz's inequality in space.
pub fn cauchy_schwarz()
    ensures { CauchySchwarz }
{}

/// The parallel-axis identity for a weighted list in the plane.
pub fn parallel_axis_in_plane()
    ensures { ParallelAxisInPlane }
{}

/// The parallel-axis identity for a weighted list in space.
pub fn parallel_axis_in_space()
    ensures { ParallelAxisInSpace }
{}

/// The cone lemma: two linear forms that are at least 0 at both ends of a cone, with `X Y ≥ m |d|²` at both ends, have it at each direction inside.
pub fn cone()
    ensures { Cone }
{}

/// The in-circle determinant is the sum of each point's square times the area of the other three.
pub fn in_circle_is_sum()
    ensures { InCircleIsSum }
{}

/// The in-sphere determinant is the sum of each point's square times the volume of the other four.
pub fn in_sphere_is_sum()
    ensures { InSphereIsSum }
{}

/// Cramer's rule for two unknowns.
pub fn cramer_of_two()
    ensures { CramerOfTwo }
{}

/// Cramer's rule for three unknowns.
pub fn cramer_of_three()
    ensures { CramerOfThree }
{}
