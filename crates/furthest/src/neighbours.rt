//! The furthest neighbour of each corner of a hull.
ghost use Rattle.std.specs.Prelude.{ℕ, ◌+◌, ◌*◌, ◌≤◌, length, IfOk};
ghost use Rattle.hull_calipers.specs.CornerLists.{corners_in, points_in};
ghost use Rattle.answers.specs.Answers.{furthest_of};
ghost use Rattle.bounds_model.specs.FurthestAnswer.{PassesFurthest};
ghost use Rattle.furthest.specs.Columns.{IsLogarithm, NamesFurthest};

use crate::columns::columns;
use crate::scan::position;
use answers::{Entries, Entry, FurthestAnswer};
use bounded_coords::{OutOfMemory, Steps};
use directions::squared_distance;
use exact_fractions::Frac;
use hull_calipers::{Corners, corners_are_those_of_the_hull};
use std::alloc::Global;
use std::sync::ledger::Ledger;

/// The answer with these columns.
fn answer<L: Ledger>(
    alloc: Global,
    corners: &Corners<'_>,
    columns: &[u32],
    steps: &mut Steps<L>,
) -> Result<FurthestAnswer, OutOfMemory>
    requires columns { NamesFurthest (corners_in corners.now) columns.now }
    ensures passes { IfOk result (λ a. PassesFurthest (points_in corners.now) (furthest_of a)) }
    ensures steps { steps.new ≤ steps.old + 2 * length (corners_in corners.now) }
{
    corners_are_those_of_the_hull(corners);
    let count = corners.len();
    let mut entries = Entries::with_capacity(alloc, count);
    let mut most = 0;
    'corners: for i in 0..count {
        let far = position(count, columns[i as usize]);
        let here = corners.corner(i, steps);
        let there = corners.corner(far, steps);
        most = most.max(squared_distance(here, there));
        entries.push(Entry {
            corner: corners.number(i),
            far,
        })?;
    }
    Ok(FurthestAnswer {
        size: Frac::new(u128::from(most.unsigned_abs()), 1),
        entries,
    })
}

/// Each corner of a hull with its furthest corner, the first of several going around from it, and the greatest squared distance of two
/// points (CGAL manual, Optimal Distances, `all_furthest_neighbors_2`).
pub fn furthest<L: Ledger>(
    alloc: Global,
    corners: &Corners<'_>,
    steps: &mut Steps<L>,
) -> Result<FurthestAnswer, OutOfMemory>
    ensures passes { IfOk result (λ a. PassesFurthest (points_in corners.now) (furthest_of a)) }
    ensures steps { (b : ℕ) → IsLogarithm (2 * length (corners_in corners.now) + 1) b
        → steps.new ≤ steps.old + 8 * length (corners_in corners.now) * (b + 2) + 64 }
{
    let columns = columns(alloc, corners, steps)?;
    answer(alloc, corners, &columns, steps)
}
