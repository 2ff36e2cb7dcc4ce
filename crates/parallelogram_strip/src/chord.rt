//! The chord from a point to an edge, across a direction.
ghost use Rattle.std.specs.Prelude.{◌≡◌, ◌∷◌, [], ◌<◌, ◌≤ℤ◌, pos, length};
ghost use Rattle.integers.specs.Size.{Size};
ghost use Rattle.bounds_model.specs.Plane.{dot, vector, times, quarter_turn};
ghost use Rattle.bounds_model.specs.Fractions.{HaveNoCommonFactor};
ghost use Rattle.bounds_model.specs.Fans.{IsShort, reach as reach_of};
ghost use Rattle.bounded_coords.specs.Clouds.{points_of};
ghost use Rattle.answers.specs.Answers.{vector_of, chord_of};
ghost use Rattle.parallelogram_strip.specs.Crossings.{IsChord};

use answers::{Chord, Dir};
use bounded_coords::{Cloud2, Point2};
use directions::{beyond, cross, squared_length, turn};
use exact_fractions::quotient;

/// How many times the direction, turned by a right angle, leads from a to b, for a direction in lowest terms.
fn multiple(d: Dir, a: &Point2, b: &Point2) -> i128
    requires direction { IsShort (vector_of d) }
    requires lowest { HaveNoCommonFactor (d.x ∷ d.y ∷ []) }
    requires right_angle { dot (vector_of d) (vector a.now b.now) ≡ pos 0 }
    ensures value { vector a.now b.now ≡ times result (quarter_turn (vector_of d)) }
    ensures size { Size 320000000000 result }
{
    quotient(cross(d, a, b) as i128, squared_length(d))
}

/// The chord across a direction that begins at a and ends between b, which is not behind a, and c, which is not ahead of a.
pub(crate) fn chord(cloud: Cloud2<'_>, d: Dir, a: u32, b: u32, c: u32) -> Chord
    requires direction { IsShort (vector_of d) }
    requires lowest { HaveNoCommonFactor (d.x ∷ d.y ∷ []) }
    requires a { a < length (points_of cloud) }
    requires b { b < length (points_of cloud) }
    requires c { c < length (points_of cloud) }
    requires ahead { pos 0 ≤ℤ reach_of (points_of cloud) (vector_of d) b a }
    requires behind { reach_of (points_of cloud) (vector_of d) c a ≤ℤ pos 0 }
    ensures chord { IsChord (points_of cloud.entry) (vector_of d) (chord_of result) }
    ensures points { (result.a ≡ a) × (result.b ≡ b) × (result.c ≡ c) }
{
    let (p, q, r) = (cloud.at(a), cloud.at(b), cloud.at(c));
    let beta = beyond(d, r, p);
    let gamma = beyond(d, p, q);
    if beta + gamma == 0 {
        return Chord {
            a,
            b,
            c,
            beta: 1,
            gamma: 0,
            k: multiple(d, p, q),
        };
    }
    Chord {
        a,
        b,
        c,
        beta,
        gamma,
        k: turn(p, q, r) as i128,
    }
}
