//! Fans over half a turn.
ghost use Rattle.std.specs.Prelude.{◌≡◌, ◌+◌, ◌*◌, ◌<◌, ◌≤◌, length, map, All, Contains, IfOk, OnOk};
ghost use Rattle.bounds_model.specs.Fans.{HoldsHalf, HalfRanges, half_directions, east, north, IsShort};
ghost use Rattle.bounds_model.specs.PlainFans.{IsPlainHalf};
ghost use Rattle.answers.specs.Answers.{half_cone_of, half_fan_of};
ghost use Rattle.hull_calipers.specs.CornerLists.{corners_in, points_in};
ghost use Rattle.hull_calipers.specs.ExtremeCorners.{turned, next_side, StartsAt, IsUpper};
ghost use Rattle.hull_calipers.specs.Fans.{path, IsHalfPath};

use crate::calipers::start;
use crate::cones::{dir_from, number_at};
use crate::corner_list::Corners;
use crate::directions::Direction;
use crate::pairs::AntipodalPair;
use crate::sides::Side;
use answers::{Dir, HalfCone, HalfCones, HalfFan};
use bounded_coords::{OutOfMemory, Steps};
use std::alloc::Global;
use std::sync::ledger::Ledger;

/// Adds the cones of the quarter turn that begins at a side, with calipers at the corners where they start there.
fn add_cones<L: Ledger>(
    cones: &mut HalfCones,
    corners: &Corners<'_>,
    side: Side,
    high_at: u32,
    low_at: u32,
    steps: &mut Steps<L>,
) -> Result<(), OutOfMemory>
    requires upper { IsUpper side }
    requires high { StartsAt (corners_in corners.now) side high_at }
    requires low { StartsAt (corners_in corners.now) (next_side (next_side side)) low_at }
    requires high_at { high_at < 400000 }
    requires low_at { low_at < 400000 }
    requires path { IsHalfPath (points_in corners.now) (corners_in corners.now) (map half_cone_of cones.old) (turned side east) }
    requires few { length cones.old < 100000 }
    ensures path { OnOk result (IsHalfPath (points_in corners.now) (corners_in corners.now) (map half_cone_of cones.new) (turned side north)) }
    ensures begun { OnOk result (Contains (path (λ cone. cone.direction) (map half_cone_of cones.new) (turned side north)) (turned side east)) }
    ensures few { length cones.new ≤ length cones.old + 20001 }
    ensures steps { steps.new ≤ steps.old + 4 * length (corners_in corners.now) + 4 }
{
    let mut pair = AntipodalPair::at(corners, side, high_at, low_at, steps);
    let mut direction = Direction { x: 1, y: 0 };
    'directions: while direction.x > 0 {
        let cone = HalfCone {
            dir: dir_from(side, direction),
            hi: number_at(corners, pair.high.advance),
            lo: number_at(corners, pair.low.advance),
        };
        cones.push(cone)?;
        direction = pair.next().lowest();
        pair = pair.follow(corners, direction, steps);
    }
    Ok(())
}

/// The directions from (1,0) to (-1,0) at right angles to the edges of the hull, and upwards, in lowest terms. The cone from
/// each to the next has a highest and a lowest point for both: antipodal pairs. Found by rotating calipers: Toussaint, "Solving
/// geometric problems with the rotating calipers", 1983; CGAL manual, "Bounding Volumes".
pub fn half_fan<L: Ledger>(
    alloc: Global,
    corners: &Corners<'_>,
    steps: &mut Steps<L>,
) -> Result<HalfFan, OutOfMemory>
    ensures holds { IfOk result (λ fan. HoldsHalf (points_in corners.now) (half_fan_of fan)) }
    ensures plain { IfOk result (λ fan. IsPlainHalf (corners_in corners.now) (half_directions (half_fan_of fan))) }
    ensures few { IfOk result (λ fan. length (half_directions (half_fan_of fan)) ≤ length (corners_in corners.now) + 3) }
    ensures short { IfOk result (λ fan. All IsShort (half_directions (half_fan_of fan))) }
    ensures ranges { IfOk result (λ fan. HalfRanges (half_fan_of fan)) }
    ensures steps { steps.new ≤ steps.old + 16 * length (corners_in corners.now) + 64 }
{
    let bottom = start(corners, Side::Left, 0, steps);
    let right = start(corners, Side::Bottom, bottom, steps);
    let top = start(corners, Side::Right, right, steps);
    let mut cones = HalfCones::new(alloc);
    add_cones(&mut cones, corners, Side::Right, right, 0, steps)?;
    add_cones(&mut cones, corners, Side::Top, top, bottom, steps)?;
    Ok(HalfFan {
        cones,
        last: Dir { x: -1, y: 0 },
    })
}
