//! The largest rectangle over all seeds.
ghost use Rattle.std.specs.Prelude.{◌≡◌, ◌⊎◌, ◌≤◌, All};
ghost use Rattle.std.specs.List.Sorted.{IsNonDecreasingBy};
ghost use Rattle.empty_rectangle.specs.Rectangles.{columns, IsInExtent, IsExtent, IsRestricted};
ghost use Rattle.empty_rectangle.specs.Seeds.{NoneExceeds};

use crate::obstacles::{Extent, Obstacle};
use crate::rectangles::Rectangle;
use crate::sweep::{Seed, sweep_up};

/// The largest rectangle with no obstacle strictly inside it, where it is larger than `start`, and else `start`. The bottom of the
/// largest one rests on an obstacle, or is on the frame's, and then its left side rests on an obstacle or is on the frame's: these
/// are the seeds. As soon as a rectangle has more than the area `enough`, that one is the result. The x of the obstacles, in their
/// order, are `xs`.
///
/// It is never inlined, so that a check takes its steps in the same compiled code as the search for the answer.
#[inline(never)]
pub(crate) fn search(
    obstacles: &[Obstacle],
    xs: &[u32],
    extent: Extent,
    start: Rectangle,
    enough: u64,
) -> Rectangle
    requires columns { xs.now ≡ columns obstacles.now }
    requires sorted { IsNonDecreasingBy (λ s. s.y) obstacles.now }
    requires inside { All (IsInExtent extent) obstacles.now }
    requires extent { IsExtent extent }
    ensures most { result.area ≤ enough → NoneExceeds obstacles.now extent result.area }
    ensures kept { start.area ≤ result.area }
    ensures restricted { (result ≡ start) ⊎ IsRestricted obstacles.now extent result }
{
    let mut best = sweep_up(obstacles, xs, 0, extent, Seed::corner(), start);
    'above: for i in 0..obstacles.len() {
        best = sweep_up(
            obstacles,
            xs,
            i + 1,
            extent,
            Seed::above(obstacles[i]),
            best,
        );
        if best.area > enough {
            return best;
        }
    }
    'beside: for i in 0..obstacles.len() {
        best = sweep_up(obstacles, xs, 0, extent, Seed::beside(obstacles[i]), best);
        if best.area > enough {
            return best;
        }
    }
    best
}
