//! An answer of any kind.
ghost use Rattle.std.specs.Prelude.{◌≡◌};
ghost use Rattle.bounds_model.specs.Answers.{size_of};
ghost use Rattle.answers.specs.Answers.{answer_of};

use crate::{
    AnnulusAnswer, BallAnswer2, BallAnswer3, CentresAnswer, DistanceAnswer, EmptyAnswer,
    FourAnswer, FurthestAnswer, KgonAnswer, ParaAnswer, RectAnswer, ShellAnswer, StripAnswer,
};
use exact_fractions::Frac;

/// An answer of any kind: an object, its exact size, and a witness which shows that no object of the kind is better.
#[derive(Debug, Drop, PartialEq, Eq)]
pub enum Answer {
    /// The smallest circle around the points.
    Circle(BallAnswer2),
    /// The smallest sphere around the points.
    Sphere(BallAnswer3),
    /// The smallest rectangle around the points, in any direction.
    Rectangle(RectAnswer),
    /// The smallest parallelogram around the points.
    Parallelogram(ParaAnswer),
    /// The narrowest strip around the points.
    Strip(StripAnswer),
    /// The annulus around the points with the least difference of squared radii.
    Annulus(AnnulusAnswer),
    /// The largest axis-parallel rectangle in a frame with no point inside.
    Empty(EmptyAnswer),
    /// The largest polygon on so many of the hull's corners.
    Kgon(KgonAnswer),
    /// The distance of the hulls of two sets.
    Distance(DistanceAnswer),
    /// The smallest squares, so many, that cover the points.
    Centres(CentresAnswer),
    /// The hull's corners, each with the corner furthest from it.
    Furthest(FurthestAnswer),
    /// The smallest four squares that cover the points.
    Four(FourAnswer),
    /// The shell around the points with the least difference of squared radii.
    Shell(ShellAnswer),
}

/// The size that the answer prints: squared units for circle, sphere, strip, annulus, distance, furthest corners and shell, an
/// area for rectangle, parallelogram, empty rectangle and polygon, a length for centres, also for four.
pub fn size(answer: &Answer) -> Frac
    ensures { result ≡ size_of (answer_of answer.now) }
{
    match answer {
        Answer::Circle(a) => a.size,
        Answer::Sphere(a) => a.size,
        Answer::Rectangle(a) => a.size,
        Answer::Parallelogram(a) => a.size,
        Answer::Strip(a) => a.size,
        Answer::Annulus(a) => a.size,
        Answer::Empty(a) => a.size,
        Answer::Kgon(a) => a.size,
        Answer::Distance(a) => a.size,
        Answer::Centres(a) => a.size,
        Answer::Furthest(a) => a.size,
        Answer::Four(a) => a.size,
        Answer::Shell(a) => a.size,
    }
}
