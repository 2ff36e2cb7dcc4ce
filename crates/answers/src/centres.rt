//! Squares that cover the points, and leaves of the tree which refutes smaller ones.
use crate::answer_list::AnswerList;
use arrayvec::ArrayVec;
use exact_fractions::{Frac, Homog2};

/// The numbers of two points that are too far apart for one square.
#[derive(Clone, Copy, Debug, Default, PartialEq, Eq)]
pub struct Leaf {
    /// The number of the one point.
    pub first: u32,
    /// The number of the other point.
    pub second: u32,
}

/// The smallest squares that cover the points, and leaves which show that no smaller ones do.
#[derive(Debug, Drop, PartialEq, Eq)]
pub struct CentresAnswer {
    /// Half the side of the squares.
    pub size: Frac,
    /// The centres of the squares.
    pub squares: ArrayVec<Homog2, 3>,
    /// A leaf for each way to put smaller squares into corners.
    pub leaves: ArrayVec<Leaf, 16>,
}

/// Leaves in order.
pub type Leaves = AnswerList<Leaf>;

/// Four smallest squares that cover the points, and leaves which show that no smaller ones do.
#[derive(Debug, Drop, PartialEq, Eq)]
pub struct FourAnswer {
    /// Half the side of the squares.
    pub size: Frac,
    /// The centres of the squares.
    pub squares: ArrayVec<Homog2, 4>,
    /// Sixteen leaves for each height of a first square over the least point, from the lowest height up.
    pub leaves: Leaves,
}
