//! The bounding boxes of what squares leave over.
ghost use Rattle.std.specs.Prelude.{◌≢◌, ℕ, ◌<◌, ◌≤◌, [], ◌∷◌, ◌++◌, length, None, slice_index_or};
ghost use Rattle.bounded_coords.specs.Clouds.{points_of};
ghost use Rattle.corner_squares.specs.Extents.{IsPlaneExtent, IsFound};
ghost use Rattle.centres_check.specs.CornerBoxes.{square_in, GrowsOutside};

use bounded_coords::{Cloud2, Point2};
use corner_squares::{Bounds, Square, any_contains};

/// The bounding box of the points that the squares leave over, where there are some.
fn bounding_box(placed: &[Square], cloud: Cloud2<'_>) -> Option<Bounds>
    ensures { IsFound (points_of cloud.entry) placed.now (length (points_of cloud.entry)) result }
{
    let mut found = None;
    for i in 0..cloud.len() {
        let p = cloud.at(i);
        if !any_contains(placed, p) {
            found = Some(Bounds::grown(found, p, i));
        }
    }
    found
}

/// The bounding box where the tree below the squares has a node: one of depth 0 is a leaf alone.
pub(crate) fn box_at(depth: u8, placed: &[Square], cloud: Cloud2<'_>) -> Option<Bounds>
    ensures { depth ≢ 0 → IsFound (points_of cloud.entry) placed.now (length (points_of cloud.entry)) result }
{
    if depth == 0 {
        return None;
    }
    bounding_box(placed, cloud)
}

/// The bounding boxes below the node of the squares, for one square more in each corner of its box, where the tree has nodes
/// there. One pass finds the four.
pub(crate) fn boxes_below(
    depth: u8,
    placed: &[Square],
    bounds: Bounds,
    side: u32,
    cloud: Cloud2<'_>,
) -> [Option<Bounds>; 4]
    requires across { IsPlaneExtent bounds.across }
    requires up { IsPlaneExtent bounds.up }
    requires side { side ≤ 2000000 }
    ensures { depth ≢ 1 → (corner : ℕ) → corner < 4
        → IsFound (points_of cloud.entry) (placed.now ++ square_in side corner bounds ∷ []) (length (points_of cloud.entry)) (slice_index_or result corner None) }
{
    if depth == 1 {
        return [None; 4];
    }
    boxes_beside(placed, bounds, side, cloud)
}

/// The bounding boxes of what the squares and one more leave over, for the one in each corner of the box.
fn boxes_beside(
    placed: &[Square],
    bounds: Bounds,
    side: u32,
    cloud: Cloud2<'_>,
) -> [Option<Bounds>; 4]
    requires across { IsPlaneExtent bounds.across }
    requires up { IsPlaneExtent bounds.up }
    requires side { side ≤ 2000000 }
    ensures { (corner : ℕ) → corner < 4
        → IsFound (points_of cloud.entry) (placed.now ++ square_in side corner bounds ∷ []) (length (points_of cloud.entry)) (slice_index_or result corner None) }
{
    let lower_left = bounds.corner_square(0, side);
    let lower_right = bounds.corner_square(1, side);
    let upper_left = bounds.corner_square(2, side);
    let upper_right = bounds.corner_square(3, side);
    let (mut first, mut second, mut third, mut fourth) = (None, None, None, None);
    'points: for i in 0..cloud.len() {
        let p = cloud.at(i);
        if !any_contains(placed, p) {
            first = grown_outside(first, &lower_left, p, i);
            second = grown_outside(second, &lower_right, p, i);
            third = grown_outside(third, &upper_left, p, i);
            fourth = grown_outside(fourth, &upper_right, p, i);
        }
    }
    [first, second, third, fourth]
}

/// What was found before, if anything, with the point of this number where the square does not contain it.
fn grown_outside(found: Option<Bounds>, square: &Square, p: &Point2, number: u32) -> Option<Bounds>
    ensures { GrowsOutside square.now p.now number found result }
{
    if square.contains(p) {
        return found;
    }
    Some(Bounds::grown(found, p, number))
}
