//! Bounds along a direction.
ghost use Rattle.std.specs.Prelude.{◌≡◌, ◌<◌, length};
ghost use Rattle.bounds_model.specs.Plane.{dot, point_at};
ghost use Rattle.bounds_model.specs.Fans.{IsShort};
ghost use Rattle.bounds_model.specs.StripAnswer.{IsShortSpan};
ghost use Rattle.bounded_coords.specs.Clouds.{points_of};
ghost use Rattle.answers.specs.Answers.{vector_of, span_of};

use crate::along;
use answers::{Dir, Span};
use bounded_coords::Cloud2;

/// How far out two points lie in a direction, the lower one first.
pub fn span(cloud: Cloud2<'_>, d: Dir, hi: u32, lo: u32) -> Span
    requires direction { IsShort (vector_of d) }
    requires hi { hi < length (points_of cloud) }
    requires lo { lo < length (points_of cloud) }
    ensures bounds { span_of result ≡ record {
      low = dot (vector_of d) (point_at (points_of cloud.entry) lo);
      high = dot (vector_of d) (point_at (points_of cloud.entry) hi);
    } }
    ensures short { IsShortSpan (span_of result) }
{
    Span {
        lo: along(d, cloud.at(lo)) as i128,
        hi: along(d, cloud.at(hi)) as i128,
    }
}
