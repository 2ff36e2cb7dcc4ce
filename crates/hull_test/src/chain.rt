//! Corners that go around, as a chain of the directions that their edges look out to.
ghost use Rattle.std.specs.Prelude.{◌≡◌, ◌↔◌, ◌+◌, ◌%◌, ◌<◌, ◌≤◌, length, map, All, IsTrue};
ghost use Rattle.bounds_model.specs.Plane.{point_at};
ghost use Rattle.bounds_model.specs.Hull.{around};
ghost use Rattle.bounds_model.specs.CornerTest.{GoAround};
ghost use Rattle.bounds_model.specs.Fans.{IsShort};
ghost use Rattle.bounded_coords.specs.Clouds.{points_of};
ghost use Rattle.fan_test.specs.Directions.{direction_of};
ghost use Rattle.hull_test.specs.CornerNumbers.{AreCornerNumbers};
ghost use Rattle.hull_test.specs.Outward.{right_of};

use crate::hulls::corner;
use bounded_coords::{Cloud2, Point2};
use fan_test::{Chain, Direction, encloses, leads};

/// Corners by their numbers. The cone of each corner is between the directions that its two edges look out to.
#[derive(Drop)]
struct HullChain<'a> {
    cloud: Cloud2<'a>,
    numbers: &'a [u32],
    ghost some: { 1 ≤ length numbers.now },
    ghost few: { length numbers.now ≤ 10000 },
    ghost listed: { All (λ n. n < length (points_of cloud)) numbers.now },
}

/// The direction that an edge looks out to.
fn outwards(from: &Point2, to: &Point2) -> Direction
    ensures value { direction_of result ≡ right_of from.now to.now }
    ensures short { IsShort (direction_of result) }
{
    Direction {
        x: to.y() as i64 - from.y() as i64,
        y: from.x() as i64 - to.x() as i64,
    }
}

impl Chain for HullChain<'_> {
    ghost use Rattle.std.specs.Prelude.{length, map};
    ghost use Rattle.bounds_model.specs.Plane.{point_at};
    ghost use Rattle.bounds_model.specs.Hull.{around};
    ghost use Rattle.bounded_coords.specs.Clouds.{points_of};
    ghost use Rattle.hull_test.specs.Outward.{outward};

    ghost cones = { λ c. length c.numbers.now };

    ghost directions = { λ c i. outward (map (point_at (points_of c.cloud)) c.numbers.now) i };

    ghost points = { λ c i. around (map (point_at (points_of c.cloud)) c.numbers.now) i };

    ghost cloud = { λ c. points_of c.cloud };

    fn len(&self) -> u32 {
        self.numbers.len() as u32
    }

    fn direction(&self, i: u32) -> Direction {
        let count = self.numbers.len();
        let to = i as usize;
        let from = corner_around(self.cloud, self.numbers, to + (count - 1));
        outwards(from, corner_around(self.cloud, self.numbers, to))
    }

    fn number(&self, i: u32) -> u32 {
        self.numbers[i as usize]
    }

    fn point(&self, i: u32) -> Point2 {
        *self.cloud.at(self.number(i))
    }
}

/// The corner at a position that is counted around, less than twice.
fn corner_around<'a>(cloud: Cloud2<'a>, numbers: &[u32], i: usize) -> &'a Point2
    requires within { i < length numbers.now + length numbers.now }
    requires numbers { All (λ n. n < length (points_of cloud)) numbers.now }
    ensures { result.now ≡ around (map (point_at (points_of cloud.entry)) numbers.now) i }
{
    let count = numbers.len();
    if i < count {
        corner(cloud, numbers, i)
    } else {
        corner(cloud, numbers, i - count)
    }
}

/// Whether the way around turns left at each corner, with no point to the right of an edge.
///
/// The directions that the edges look out to then turn left, and no point is further out than the corners at both ends of an edge.
pub(crate) fn go_around(cloud: Cloud2<'_>, numbers: &[u32]) -> bool
    requires numbers { AreCornerNumbers (length (points_of cloud)) numbers.now }
    ensures { IsTrue result
        ↔ GoAround (points_of cloud.entry) (map (point_at (points_of cloud.entry)) numbers.now) }
{
    let chain = HullChain { cloud, numbers };
    let first = chain.direction(0);
    let last = chain.direction(chain.len());
    if !leads(&chain, first, last) {
        return false;
    }
    encloses(&chain, cloud)
}
