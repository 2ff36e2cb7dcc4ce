//! What is to be known of the entries before the corners are tested.
ghost use Rattle.std.specs.Prelude.{◌≡◌, ◌↔◌, ◌<◌, ◌≤◌, length, map, take, IsTrue};
ghost use Rattle.bounded_coords.specs.Clouds.{points_of};
ghost use Rattle.answers.specs.Answers.{entry_of};
ghost use Rattle.bounds_model.specs.FurthestAnswer.{corner_numbers};
ghost use Rattle.furthest_check.specs.RowTests.{HasFurthestLimits};

use answers::Entry;
use bounded_coords::Cloud2;

/// The most corners.
pub(crate) const MOST_CORNERS: usize = 10_000;

/// Whether there are 1 to 10000 entries, each with the number of a point and the position of a corner.
pub(crate) fn has_limits(cloud: Cloud2<'_>, entries: &[Entry]) -> bool
    ensures { IsTrue result ↔ HasFurthestLimits (length (points_of cloud.entry)) (map entry_of entries.now) }
{
    if entries.len() < 1 {
        return false;
    }
    if entries.len() > MOST_CORNERS {
        return false;
    }
    for i in 0..entries.len() {
        if !is_within(entries[i], cloud.len(), entries.len() as u32) {
            return false;
        }
    }
    true
}

/// Whether an entry has the number of one of so many points, and the position of one of so many corners.
fn is_within(e: Entry, points: u32, corners: u32) -> bool
    ensures { IsTrue result ↔ ((e.corner < points) × (e.far < corners)) }
{
    e.corner < points && e.far < corners
}

/// The numbers of the corners, and then zeros.
pub(crate) fn numbers_of(entries: &[Entry]) -> [u32; MOST_CORNERS]
    requires { length entries.now ≤ 10000 }
    ensures { take (length entries.now) result ≡ corner_numbers (map entry_of entries.now) }
{
    let mut numbers = [0; MOST_CORNERS];
    'entries: for i in 0..entries.len() {
        numbers[i] = entries[i].corner;
    }
    numbers
}
