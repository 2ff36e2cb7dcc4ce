//! The listed corners as points, each looked up once.
ghost use Rattle.std.specs.Prelude.{◌≡◌, ◌^◌, length, map, take};
ghost use Rattle.integers.specs.Size.{Size};
ghost use Rattle.bounds_model.specs.Plane.{point_at, turn};
ghost use Rattle.bounded_coords.specs.Clouds.{points_of};
ghost use Rattle.polygon_check.specs.PolygonLimits.{AreCornerNumbers};

use added_areas::{MOST_CORNERS, area, vector_between};
use bounded_coords::{Cloud2, Point2};

/// The points with these numbers, and the first of them again in each place behind.
pub(crate) fn listed_corners(cloud: Cloud2<'_>, numbers: &[u32]) -> [Point2; MOST_CORNERS]
    requires { AreCornerNumbers (length (points_of cloud)) numbers.now }
    ensures { take (length numbers.now) result ≡ map (point_at (points_of cloud.entry)) numbers.now }
{
    let mut corners = [*cloud.at(numbers[0]); MOST_CORNERS];
    'numbers: for i in 1..numbers.len() {
        corners[i] = *cloud.at(numbers[i]);
    }
    corners
}

/// Twice the area of a triangle, above 0 where its corners turn left.
pub(crate) fn twice_area(a: &Point2, b: &Point2, c: &Point2) -> i64
    ensures area { result ≡ turn a.now b.now c.now }
    ensures small { Size (2 ^ 39) result }
{
    area(vector_between(a, b), vector_between(a, c))
}
