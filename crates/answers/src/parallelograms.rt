//! Chords across the directions of a fan, and parallelograms.
use crate::{AnswerList, Dir, HalfFan, Span};
use exact_fractions::Frac;

/// From the point a to the mean of b and c with the weights beta and gamma: k / (beta + gamma) times a direction turned by a
/// right angle.
#[derive(Clone, Copy, Debug, Default, PartialEq, Eq)]
pub struct Chord {
    /// The number of the point at which the chord begins.
    pub a: u32,
    /// The number of a point of the edge on which it ends.
    pub b: u32,
    /// The number of the other point of that edge.
    pub c: u32,
    /// The weight of b.
    pub beta: u128,
    /// The weight of c.
    pub gamma: u128,
    /// The factor.
    pub k: i128,
}

/// The chords of a fan, one a direction, the last included.
pub type Chords = AnswerList<Chord>;

/// The smallest parallelogram around the points, a fan over half a turn, and for each of its directions a chord across it.
#[derive(Debug, Drop, PartialEq, Eq)]
pub struct ParaAnswer {
    /// The area.
    pub size: Frac,
    /// The first normal.
    pub first: Dir,
    /// The bounds along the first normal.
    pub first_span: Span,
    /// The second normal.
    pub second: Dir,
    /// The bounds along the second normal.
    pub second_span: Span,
    /// The fan.
    pub fan: HalfFan,
    /// The chords, in the order of the fan's directions.
    pub chords: Chords,
}
