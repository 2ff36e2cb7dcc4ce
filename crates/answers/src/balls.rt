//! Circles and spheres, and the points that determine them.
use arrayvec::ArrayVec;
use exact_fractions::{Frac, Homog2, Homog3};

/// The number of a point, and its weight.
#[derive(Clone, Copy, Debug, Default, PartialEq, Eq)]
pub struct Weighted {
    /// The number of the point.
    pub point: u32,
    /// The weight.
    pub weight: u128,
}

/// The smallest circle around the points, and weighted points on it whose mean is its centre.
#[derive(Debug, Drop, PartialEq, Eq)]
pub struct BallAnswer2 {
    /// The squared radius.
    pub size: Frac,
    /// The centre.
    pub center: Homog2,
    /// The support points with their weights.
    pub supports: ArrayVec<Weighted, 3>,
}

/// The smallest sphere around the points, and weighted points on it whose mean is its centre.
#[derive(Debug, Drop, PartialEq, Eq)]
pub struct BallAnswer3 {
    /// The squared radius.
    pub size: Frac,
    /// The centre.
    pub center: Homog3,
    /// The support points with their weights.
    pub supports: ArrayVec<Weighted, 4>,
}
