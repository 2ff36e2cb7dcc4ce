//! The potentials for each first corner, and the greatest of them.
ghost use Rattle.std.specs.Prelude.{◌≡◌, ◌+◌, ◌-◌, ◌*◌, ◌^◌, ◌<◌, ◌≤◌, ◌++◌, ◌≤ℤ◌, length, map, All, pos, nat_abs, OnOk, IfOk};
ghost use Rattle.integers.specs.Size.{Size};
ghost use Rattle.extremal_kgon.specs.Tables.{IsTable, TakesBest};

use crate::rows::{next_row, zero_row};
use crate::triangles::{Areas, set_areas};
use crate::vectors::vectors_after;
use answers::Potentials;
use arrayvec::ArrayVec;
use bounded_coords::{OutOfMemory, Point2};
use std::alloc::Global;

/// The greatest potential, twice an area, and where it stands: 0 stands nowhere.
#[derive(Clone, Copy, Debug, PartialEq, Eq)]
pub(crate) struct Best {
    pub(crate) area: i64,
    pub(crate) first: usize,
    /// How many triangles there are at most.
    pub(crate) layer: usize,
    pub(crate) last: usize,
}

impl Best {
    /// With a row of potentials.
    fn with_row(self, row: &[i64], first: usize, layer: usize) -> Best
        requires index { first + layer + length row.now ≤ 1000 }
        requires not_negative { pos 0 ≤ℤ self.area }
        requires small { Size (2 ^ 43) self.area }
        requires sizes { All (Size (2 ^ 43)) row.now }
        ensures { TakesBest self row.now first layer result }
    {
        let mut best = self;
        'row: for i in 0..row.len() {
            let area = row[i];
            if area > best.area {
                best = Best {
                    area,
                    first,
                    layer,
                    last: first + 1 + i,
                };
            }
        }
        best
    }
}

/// Adds the numbers of a row, none of which is below 0.
fn push_row(potentials: &mut Potentials, row: &[i64]) -> Result<(), OutOfMemory>
    requires room { length potentials.old + length row.now ≤ 1000000 }
    requires sizes { All (Size (2 ^ 43)) row.now }
    ensures { OnOk result (potentials.new ≡ potentials.old ++ map nat_abs row.now) }
{
    'row: for i in 0..row.len() {
        potentials.push(u128::from(row[i].unsigned_abs()))?;
    }
    Ok(())
}

/// Adds the potentials of a first corner, layer by layer. The list of areas is room for those of its triangles.
fn add_layers(
    potentials: &mut Potentials,
    areas: &mut Areas,
    best: Best,
    corners: &[Point2],
    first: usize,
    layers: usize,
) -> Result<Best, OutOfMemory>
    requires few { length corners.now ≤ 128 }
    requires first { first < length corners.now }
    requires layers { layers ≤ 10 }
    requires table { IsTable corners.now layers first (map pos potentials.old) best }
    ensures { IfOk result (λ greatest. IsTable corners.now layers (first + 1) (map pos potentials.new) greatest) }
{
    let vectors = vectors_after(corners, first);
    set_areas(areas, vectors.as_slice());
    let mut best = best;
    let mut before = zero_row(vectors.len());
    'layers: for layer in 0..layers {
        let row = next_row(vectors.as_slice(), areas.as_slice(), before.as_slice());
        best = best.with_row(row.as_slice(), first, layer + 1);
        push_row(potentials, row.as_slice())?;
        before = row;
    }
    Ok(best)
}

/// The potentials for each first corner and each layer, and the greatest of them.
pub(crate) fn table(
    alloc: Global,
    corners: &[Point2],
    layers: usize,
) -> Result<(Potentials, Best), OutOfMemory>
    requires few { length corners.now ≤ 128 }
    requires layers { layers ≤ 10 }
    ensures { IfOk result (λ t. IsTable corners.now layers (length corners.now) (map pos t.0) t.1) }
{
    let mut potentials = Potentials::new(alloc);
    let mut areas = ArrayVec::new();
    let mut best = Best {
        area: 0,
        first: 0,
        layer: 0,
        last: 0,
    };
    'firsts: for first in 0..corners.len() {
        best = add_layers(&mut potentials, &mut areas, best, corners, first, layers)?;
    }
    Ok((potentials, best))
}
