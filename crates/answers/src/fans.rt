//! Directions in turning order with points that are extreme in them, and the answers that they show to be best.
use crate::AnswerList;
use exact_fractions::Frac;

/// A vector of the plane: a direction of a fan, or the normal of a strip.
#[derive(Clone, Copy, Debug, Default, PartialEq, Eq)]
pub struct Dir {
    /// The first coordinate.
    pub x: i128,
    /// The second coordinate.
    pub y: i128,
}

/// The bounds of the products of points with a normal.
#[derive(Clone, Copy, Debug, Default, PartialEq, Eq)]
pub struct Span {
    /// The lower bound.
    pub lo: i128,
    /// The upper bound.
    pub hi: i128,
}

/// From a direction to the next one of a fan, with a highest and a lowest point for both.
#[derive(Clone, Copy, Debug, Default, PartialEq, Eq)]
pub struct HalfCone {
    /// The direction at which the cone begins.
    pub dir: Dir,
    /// The number of a highest point.
    pub hi: u32,
    /// The number of a lowest point.
    pub lo: u32,
}

/// The cones of a fan over half a turn.
pub type HalfCones = AnswerList<HalfCone>;

/// Directions over half a turn, from (1, 0) to (-1, 0) where it holds.
#[derive(Debug, Drop, PartialEq, Eq)]
pub struct HalfFan {
    /// The cones, one from each direction to the next.
    pub cones: HalfCones,
    /// The last direction.
    pub last: Dir,
}

/// From a direction to the next one of a fan, with extreme points for both, and for both turned by a right angle.
#[derive(Clone, Copy, Debug, Default, PartialEq, Eq)]
pub struct QuarterCone {
    /// The direction at which the cone begins.
    pub dir: Dir,
    /// The number of a highest point.
    pub hi: u32,
    /// The number of a lowest point.
    pub lo: u32,
    /// The number of a highest point in the turned directions.
    pub over: u32,
    /// The number of a lowest point in the turned directions.
    pub under: u32,
}

/// The cones of a fan over a quarter turn.
pub type QuarterCones = AnswerList<QuarterCone>;

/// Directions over a quarter turn, from (1, 0) to (0, 1) where it holds.
#[derive(Debug, Drop, PartialEq, Eq)]
pub struct QuarterFan {
    /// The cones, one from each direction to the next.
    pub cones: QuarterCones,
    /// The last direction.
    pub last: Dir,
}

/// The narrowest strip around the points, and a fan which shows that none is narrower.
#[derive(Debug, Drop, PartialEq, Eq)]
pub struct StripAnswer {
    /// The squared width.
    pub size: Frac,
    /// The normal of the strip.
    pub direction: Dir,
    /// The bounds along the normal.
    pub bounds: Span,
    /// The fan.
    pub fan: HalfFan,
}

/// The smallest rectangle around the points, and a fan which shows that none is smaller.
#[derive(Debug, Drop, PartialEq, Eq)]
pub struct RectAnswer {
    /// The area.
    pub size: Frac,
    /// The direction of one side.
    pub direction: Dir,
    /// The bounds along the direction.
    pub along: Span,
    /// The bounds along the direction turned by a right angle.
    pub across: Span,
    /// The fan.
    pub fan: QuarterFan,
}
