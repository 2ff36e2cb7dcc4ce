//! What is asked, and of which point sets.
ghost use Rattle.std.specs.Prelude.{◌≡◌, ◌↔◌, IsTrue};
ghost use Rattle.bounds_model.specs.Asks.{Suits, shape_of};
ghost use Rattle.bounded_coords.specs.Asked.{asked, lent, shaped};

use crate::{Cloud2, Cloud3, Frame};

/// What is asked of point sets. A k-gon has 3 to 12 corners at most, and there are 1 to 3 centres beside the question of four:
/// calls that take an ask require it.
#[derive(Clone, Copy, Debug, PartialEq, Eq)]
pub enum Ask {
    /// The smallest enclosing circle.
    Circle,
    /// The smallest enclosing sphere.
    Sphere,
    /// The smallest enclosing rectangle, in any direction.
    Rectangle,
    /// The smallest enclosing parallelogram.
    Parallelogram,
    /// The narrowest enclosing strip.
    Strip,
    /// The smallest enclosing annulus.
    Annulus,
    /// The largest empty rectangle in this box.
    Empty(Frame),
    /// The largest polygon of at most so many corners of the hull.
    Kgon(u8),
    /// The distance of two polytopes.
    Distance,
    /// So many centres with the least greatest distance of a point to its nearest centre.
    Centres(u8),
    /// For each corner of the hull the corner furthest from it.
    Furthest,
    /// Four centres with the least greatest distance of a point to its nearest centre.
    Four,
    /// The shell between two spheres of one centre with the least difference of squared radii.
    Shell,
}

/// Which point sets are asked of.
#[derive(Clone, Copy, Debug, PartialEq, Eq)]
pub enum Shape {
    /// One set of the plane.
    OnePlane,
    /// One set of the plane, which may have no points.
    PlaneOrBare,
    /// One set of space.
    OneSpace,
    /// Two sets of space.
    TwoSpace,
}

impl Ask {
    /// The sets that are asked of: the distance of two sets of space, sphere and shell of one, an empty rectangle of a set of the
    /// plane with points or without, and every other kind of a set of the plane.
    pub fn shape(&self) -> Shape
        ensures { shaped result ≡ shape_of (asked self.now) }
    {
        match self {
            Ask::Sphere | Ask::Shell => Shape::OneSpace,
            Ask::Distance => Shape::TwoSpace,
            Ask::Empty(_) => Shape::PlaneOrBare,
            _ => Shape::OnePlane,
        }
    }
}

/// The point sets of a task, borrowed.
#[derive(Clone, Copy)]
pub enum Sets<'a> {
    /// One set of the plane.
    Plane(Cloud2<'a>),
    /// One set of space.
    Space(Cloud3<'a>),
    /// Two sets of space.
    Two(Cloud3<'a>, Cloud3<'a>),
    /// The set of the plane without points.
    Bare,
}

/// Whether this is asked of such sets.
pub fn fit(ask: &Ask, sets: Sets<'_>) -> bool
    ensures { IsTrue result ↔ Suits (asked ask.now) (lent sets.entry) }
{
    match (ask.shape(), sets) {
        (Shape::OnePlane | Shape::PlaneOrBare, Sets::Plane(_)) => true,
        (Shape::PlaneOrBare, Sets::Bare) => true,
        (Shape::OneSpace, Sets::Space(_)) => true,
        (Shape::TwoSpace, Sets::Two(_, _)) => true,
        _ => false,
    }
}
