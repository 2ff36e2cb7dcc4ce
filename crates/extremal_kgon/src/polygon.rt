//! The polygon of greatest area on at most k of the hull's corners.
ghost use Rattle.std.specs.Prelude.{◌≡◌, ◌-◌, ◌<◌, ◌≤◌, length, map, min, All, IfOk, IfErr};
ghost use Rattle.bounds_model.specs.Plane.{point_at};
ghost use Rattle.bounds_model.specs.Hull.{AreCorners};
ghost use Rattle.bounds_model.specs.Firsts.{IsFirstKgon};
ghost use Rattle.bounds_model.specs.KgonAnswer.{corner_points, PassesKgon};
ghost use Rattle.bounded_coords.specs.Clouds.{points_of};
ghost use Rattle.answers.specs.Answers.{polygon_of};
ghost use Rattle.hull_calipers.specs.CornerLists.{numbers_in, points_in};
ghost use Rattle.extremal_kgon.specs.Faults.{AreTooMany, IsCause};

use crate::choice::choice;
use crate::table::table;
use added_areas::MOST_CORNERS;
use answers::{KgonAnswer, Numbers};
use bounded_coords::{Cloud2, OutOfMemory, Point2};
use exact_fractions::Frac;
use hull_calipers::{Corners, corners};
use optimality::kgon::passing_kgons_are_first;
use std::alloc::Global;
use std::error::Error;
use std::fmt;

/// Why a question has no answer.
#[derive(Clone, Copy, Debug, PartialEq, Eq)]
pub enum KgonFault {
    /// The hull has so many corners, more than 128.
    TooManyCorners(u32),
    /// Memory was refused.
    OutOfMemory,
}

impl fmt::Display for KgonFault {
    ghost use Rattle.std.specs.Prelude.{Some};
    ghost use Rattle.extremal_kgon.specs.Messages.{kgon_message};

    ghost output = { λ fault. Some (kgon_message fault) };

    fn fmt<W: fmt::Write>(&self, f: &mut fmt::Formatter<W>) -> fmt::Result {
        match *self {
            KgonFault::TooManyCorners(count) => write!(f, "{count} corners, at most 128 are taken"),
            KgonFault::OutOfMemory => f.write_str("out of memory"),
        }
    }
}

impl Error for KgonFault {}

impl From<OutOfMemory> for KgonFault {
    ghost use Rattle.std.specs.Prelude.{◌≡◌};
    ghost use Rattle.extremal_kgon.specs.declared.polygon.KgonFault.TheVariants.{OutOfMemory};

    ghost from_gives = { λ _ fault. fault ≡ OutOfMemory };

    fn from(_: OutOfMemory) -> KgonFault {
        KgonFault::OutOfMemory
    }
}

/// The numbers of a hull's corners.
fn numbers(alloc: Global, hull: &Corners<'_>) -> Result<Numbers, OutOfMemory>
    ensures { IfOk result (λ numbers. numbers ≡ numbers_in hull.now) }
{
    let mut numbers = Numbers::new(alloc);
    'corners: for i in 0..hull.len() {
        numbers.push(hull.number(i))?;
    }
    Ok(numbers)
}

/// The points with these numbers.
fn points(alloc: Global, cloud: Cloud2<'_>, numbers: &[u32]) -> Result<Vec<Point2>, OutOfMemory>
    requires { All (λ n. n < length (points_of cloud)) numbers.now }
    ensures { IfOk result (λ points. points.items ≡ map (point_at (points_of cloud.entry)) numbers.now) }
{
    let mut points = Vec::new(alloc);
    'numbers: for i in 0..numbers.len() {
        if points.push(*cloud.at(numbers[i])).is_err() {
            return Err(OutOfMemory);
        }
    }
    Ok(points)
}

/// How many layers of potentials there are.
fn layers(k: u8, count: usize) -> usize
    ensures { result ≡ min k count - 2 }
{
    usize::from(k).min(count).saturating_sub(2)
}

/// The answer on these corners.
fn answer(
    alloc: Global,
    cloud: Cloud2<'_>,
    corners: Numbers,
    k: u8,
) -> Result<KgonAnswer, OutOfMemory>
    requires k { 3 ≤ k }
    requires most { k ≤ 12 }
    requires few { length corners ≤ 128 }
    requires listed { All (λ n. n < length (points_of cloud)) corners }
    requires corners { AreCorners (points_of cloud) (map (point_at (points_of cloud)) corners) }
    ensures passes { IfOk result (λ a. PassesKgon k (points_of cloud.entry) (polygon_of a)) }
{
    let points = points(alloc, cloud, corners.as_slice())?;
    let layers = layers(k, points.len());
    let (potentials, best) = table(alloc, &points, layers)?;
    let chosen = choice(&points, layers, &best);
    let size = Frac::new(u128::from(best.area.unsigned_abs()), 2);
    Ok(KgonAnswer {
        size,
        corners,
        chosen,
        layers: layers as u32,
        potentials,
    })
}

/// The first largest polygon on at most `k` of the hull's corners, in the order of lists of positions, and potentials which show that
/// none is larger (Boyce, Dobkin, Drysdale and Guibas, Finding extremal polygons; CGAL manual, Inscribed Areas,
/// `maximum_area_inscribed_k_gon_2`): for each first corner and each number of triangles, by how much the triangles up to each later
/// corner cover at most.
pub fn kgon(alloc: Global, cloud: Cloud2<'_>, k: u8) -> Result<KgonAnswer, KgonFault>
    requires k { 3 ≤ k }
    requires most { k ≤ 12 }
    ensures passes { IfOk result (λ a. PassesKgon k (points_of cloud.entry) (polygon_of a)) }
    ensures first { IfOk result (λ a. IsFirstKgon k (corner_points (points_of cloud.entry) (polygon_of a)) (polygon_of a).chosen) }
    ensures taken { IfOk result (λ a. ¬ AreTooMany (points_of cloud.entry)) }
    ensures cause { IfErr result (λ fault. IsCause (points_of cloud.entry) fault) }
{
    passing_kgons_are_first();
    let hull = corners(alloc, cloud)?;
    if hull.len() as usize > MOST_CORNERS {
        return Err(KgonFault::TooManyCorners(hull.len()));
    }
    let numbers = numbers(alloc, &hull)?;
    Ok(answer(alloc, cloud, numbers, k)?)
}
