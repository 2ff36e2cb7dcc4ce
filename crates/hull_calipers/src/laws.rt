//! What holds of every list of corners.
ghost use Rattle.bounds_model.specs.Hull.{AreCorners};
ghost use Rattle.hull_calipers.specs.Hulls.{AreLeastNumbers};
ghost use Rattle.hull_calipers.specs.CornerLists.{corners_in, numbers_in, points_in};

use crate::corner_list::Corners;

/// They are the corners of the hull of their points, each by the least number of its equal points.
pub fn corners_are_those_of_the_hull(corners: &Corners<'_>)
    ensures corners { AreCorners (points_in corners.now) (corners_in corners.now) }
    ensures numbers { AreLeastNumbers (points_in corners.now) (numbers_in corners.now) }
{}
