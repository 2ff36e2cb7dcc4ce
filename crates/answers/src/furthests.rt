//! The corners of a hull, each with the corner that is furthest from it.
use crate::AnswerList;
use exact_fractions::Frac;

/// A corner of the hull, and the one that is furthest from it.
#[derive(Clone, Copy, Debug, Default, PartialEq, Eq)]
pub struct Entry {
    /// The number of the corner's point.
    pub corner: u32,
    /// The position of the furthest corner, counted from 0. Of several the first, going around from the corner.
    pub far: u32,
}

/// Corners, each with its furthest one.
pub type Entries = AnswerList<Entry>;

/// The corners of a hull, each with its furthest one, and the diameter of the points.
#[derive(Debug, Drop, PartialEq, Eq)]
pub struct FurthestAnswer {
    /// The greatest squared distance of two points.
    pub size: Frac,
    /// The hull's corners, counterclockwise from the least point.
    pub entries: Entries,
}
