//! Polygons on the corners of a hull, and bounds on what more corners add.
ghost use Rattle.std.specs.Prelude.{◌≡◌, ◌*◌, ◌≤◌, length};
ghost use Rattle.bounds_model.specs.KgonAnswer.{pairs_before};

use crate::AnswerList;
use arrayvec::ArrayVec;
use exact_fractions::Frac;

/// Numbers of points.
pub type Numbers = AnswerList<u32>;

/// Twice the areas that polygons do not exceed, layer by layer.
pub type Potentials = AnswerList<u128>;

/// The largest polygon on at most k of the hull's corners, and bounds which show that none is larger.
#[derive(Debug, Drop, PartialEq, Eq)]
pub struct KgonAnswer {
    /// The area.
    pub size: Frac,
    /// The numbers of the hull's corners, counterclockwise from the least point.
    pub corners: Numbers,
    /// The polygon's corners, as ascending positions in that list.
    pub chosen: ArrayVec<u32, 12>,
    /// How many layers of potentials there are for each first corner.
    pub layers: u32,
    /// For each first corner in turn its layers, and in each layer a potential for each later corner.
    pub potentials: Potentials,
}

impl KgonAnswer {
    /// How many potentials stand before those of a first corner. For the number of corners: how many there are.
    pub fn potentials_before(&self, first: usize) -> usize
        requires some { 1 ≤ length self.now.corners }
        requires few { length self.now.corners ≤ 128 }
        requires layers { self.now.layers ≤ 10 }
        requires first { first ≤ length self.now.corners }
        ensures { result ≡ self.now.layers * pairs_before (length self.now.corners) first }
    {
        let count = self.corners.len() as usize;
        self.layers as usize * (first * (2 * count - first - 1) / 2)
    }
}
