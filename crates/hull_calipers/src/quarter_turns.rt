//! Fans over a quarter turn.
ghost use Rattle.std.specs.Prelude.{◌≡◌, ◌+◌, ◌*◌, ◌<◌, ◌≤◌, length, map, All, IfOk};
ghost use Rattle.bounds_model.specs.Fans.{HoldsQuarter, QuarterRanges, quarter_directions, IsShort, north};
ghost use Rattle.bounds_model.specs.PlainFans.{IsPlainQuarter};
ghost use Rattle.answers.specs.Answers.{quarter_cone_of, quarter_fan_of};
ghost use Rattle.hull_calipers.specs.CornerLists.{corners_in, points_in};
ghost use Rattle.hull_calipers.specs.ExtremeCorners.{StartsAt};
ghost use Rattle.hull_calipers.specs.Fans.{IsQuarterPath};
ghost use Rattle.hull_calipers.specs.declared.sides.Side.TheVariants.{Right, Top, Left, Bottom};

use crate::calipers::start;
use crate::cones::{dir_from, number_at};
use crate::corner_list::Corners;
use crate::directions::Direction;
use crate::pairs::AntipodalPair;
use crate::sides::Side;
use answers::{Dir, QuarterCone, QuarterCones, QuarterFan};
use bounded_coords::{OutOfMemory, Steps};
use std::alloc::Global;
use std::sync::ledger::Ledger;

/// The cones of a quarter turn from right to up, with calipers at the corners where each side starts.
fn cones_of_turn<L: Ledger>(
    alloc: Global,
    corners: &Corners<'_>,
    bottom: u32,
    right: u32,
    top: u32,
    steps: &mut Steps<L>,
) -> Result<QuarterCones, OutOfMemory>
    requires bottom { StartsAt (corners_in corners.now) Bottom bottom }
    requires right { StartsAt (corners_in corners.now) Right right }
    requires top { StartsAt (corners_in corners.now) Top top }
    requires bottom_below { bottom < 400000 }
    requires right_below { right < 400000 }
    requires top_below { top < 400000 }
    ensures path { IfOk result (λ cones. IsQuarterPath (points_in corners.now) (corners_in corners.now) (map quarter_cone_of cones) north) }
    ensures steps { steps.new ≤ steps.old + 8 * length (corners_in corners.now) + 8 }
{
    let mut cones = QuarterCones::new(alloc);
    let mut along = AntipodalPair::at(corners, Side::Right, right, 0, steps);
    let mut across = AntipodalPair::at(corners, Side::Top, top, bottom, steps);
    let mut direction = Direction { x: 1, y: 0 };
    'directions: while direction.x > 0 {
        let cone = QuarterCone {
            dir: dir_from(Side::Right, direction),
            hi: number_at(corners, along.high.advance),
            lo: number_at(corners, along.low.advance),
            over: number_at(corners, across.high.advance),
            under: number_at(corners, across.low.advance),
        };
        cones.push(cone)?;
        direction = along.next().first(across.next()).lowest();
        along = along.follow(corners, direction, steps);
        across = across.follow(corners, direction, steps);
    }
    Ok(cones)
}

/// The directions from (1,0) to (0,1) at right angles to the edges of the hull or along them, in lowest terms. The cone from
/// each to the next has a highest and a lowest point for both, and for both turned by a right angle. Found by rotating
/// calipers: Toussaint, "Solving geometric problems with the rotating calipers", 1983; CGAL manual, "Bounding Volumes".
pub fn quarter_fan<L: Ledger>(
    alloc: Global,
    corners: &Corners<'_>,
    steps: &mut Steps<L>,
) -> Result<QuarterFan, OutOfMemory>
    ensures holds { IfOk result (λ fan. HoldsQuarter (points_in corners.now) (quarter_fan_of fan)) }
    ensures plain { IfOk result (λ fan. IsPlainQuarter (corners_in corners.now) (quarter_directions (quarter_fan_of fan))) }
    ensures few { IfOk result (λ fan. length (quarter_directions (quarter_fan_of fan)) ≤ length (corners_in corners.now) + 2) }
    ensures short { IfOk result (λ fan. All IsShort (quarter_directions (quarter_fan_of fan))) }
    ensures ranges { IfOk result (λ fan. QuarterRanges (quarter_fan_of fan)) }
    ensures steps { steps.new ≤ steps.old + 16 * length (corners_in corners.now) + 64 }
{
    let bottom = start(corners, Side::Left, 0, steps);
    let right = start(corners, Side::Bottom, bottom, steps);
    let top = start(corners, Side::Right, right, steps);
    let cones = cones_of_turn(alloc, corners, bottom, right, top, steps)?;
    Ok(QuarterFan {
        cones,
        last: Dir { x: 0, y: 1 },
    })
}
