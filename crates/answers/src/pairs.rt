//! Weighted pairs of points, and the answers that they show to be best.
use arrayvec::ArrayVec;
use exact_fractions::{Frac, Homog2, Homog3};

/// The numbers of two points, and the weight of their difference.
#[derive(Clone, Copy, Debug, Default, PartialEq, Eq)]
pub struct WeightedPair {
    /// The number of the one point: on the outer circle or sphere, or of the first set.
    pub first: u32,
    /// The number of the other point: on the inner circle or sphere, or of the second set.
    pub second: u32,
    /// The weight.
    pub weight: u128,
}

/// The annulus around the points with the least difference of squared radii, and weighted pairs that show it.
#[derive(Debug, Drop, PartialEq, Eq)]
pub struct AnnulusAnswer {
    /// The difference of the squared radii.
    pub size: Frac,
    /// The centre.
    pub center: Homog2,
    /// The squared radius of the inner circle.
    pub inner: Frac,
    /// The squared radius of the outer circle.
    pub outer: Frac,
    /// The pairs, whose weighted differences sum to zero.
    pub pairs: ArrayVec<WeightedPair, 3>,
}

/// The shell around the points of space with the least difference of squared radii, and weighted pairs that show it.
#[derive(Debug, Drop, PartialEq, Eq)]
pub struct ShellAnswer {
    /// The difference of the squared radii.
    pub size: Frac,
    /// The centre.
    pub center: Homog3,
    /// The level of the inner sphere: a point's level is the centre's denominator times its squared distance from the centre,
    /// less a term that is the same for all points.
    pub low: i128,
    /// The level of the outer sphere.
    pub high: i128,
    /// The pairs, whose weighted differences sum to zero.
    pub pairs: ArrayVec<WeightedPair, 4>,
}

/// A vector of space.
#[derive(Clone, Copy, Debug, Default, PartialEq, Eq)]
pub struct Dir3 {
    /// The first coordinate.
    pub x: i128,
    /// The second coordinate.
    pub y: i128,
    /// The third coordinate.
    pub z: i128,
}

/// The distance of two hulls, a point of each that is nearest to the other, and weighted pairs of which they are the means.
#[derive(Debug, Drop, PartialEq, Eq)]
pub struct DistanceAnswer {
    /// The squared distance.
    pub size: Frac,
    /// The point of the first hull.
    pub from: Homog3,
    /// The point of the second hull.
    pub to: Homog3,
    /// From the second point to the first, in lowest terms; 0 where the hulls meet.
    pub direction: Dir3,
    /// The pairs, the first of each from the first set.
    pub pairs: ArrayVec<WeightedPair, 4>,
}
