//! The potentials of one first corner, layer by layer.
ghost use Rattle.std.specs.Prelude.{◌≡◌, ◌+◌, ◌-◌, ◌*◌, ◌^◌, ◌<◌, ◌≤◌, pos, ◌≤ℤ◌, length, map, All};
ghost use Rattle.answers.specs.Answers.{polygon_of};
ghost use Rattle.polygon_check.specs.PolygonLimits.{IsTable};
ghost use Rattle.polygon_check.specs.PotentialRows.{at, Adds, AreRows};

use answers::KgonAnswer;
use arrayvec::ArrayVec;

/// The most potentials of a first corner: 11 layers, the lowest of which is 0, for each of 127 later corners.
const MOST_POTENTIALS: usize = 1397;

/// The potentials of a first corner, in each layer one for each later corner.
pub(crate) type Rows = ArrayVec<i64, MOST_POTENTIALS>;

/// Adds so many zeros.
fn push_zeros(rows: &mut Rows, count: usize)
    requires room { length rows.old.items + count ≤ 1397 }
    ensures { Adds (2 ^ 43) (λ j. pos 0) count rows.old.items rows.new.items }
{
    'zeros: for _j in 0..count {
        rows.push(0);
    }
}

/// Adds so many potentials, from this index on.
fn push_potentials(rows: &mut Rows, potentials: &[u128], start: usize, count: usize)
    requires room { length rows.old.items + count ≤ 1397 }
    requires within { start + count ≤ length potentials.now }
    requires small { All (λ u. u ≤ℤ pos (2 ^ 43)) (map pos potentials.now) }
    ensures { Adds (2 ^ 43) (λ j. at (map pos potentials.now) (start + j)) count rows.old.items rows.new.items }
{
    'numbers: for j in 0..count {
        rows.push(potentials[start + j] as i64);
    }
}

/// The potentials of this first corner.
pub(crate) fn rows(a: &KgonAnswer, first: u32) -> Rows
    requires table { IsTable (polygon_of a.now) }
    requires below { first < length a.now.corners }
    ensures { AreRows (polygon_of a.now) first result.items }
{
    let count = a.corners.len();
    let width = (count - 1 - first) as usize;
    let start = a.potentials_before(first as usize);
    let mut rows = ArrayVec::new();
    push_zeros(&mut rows, width);
    push_potentials(
        &mut rows,
        a.potentials.as_slice(),
        start,
        a.layers as usize * width,
    );
    rows
}
