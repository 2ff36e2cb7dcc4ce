//! Three pairs of points around the target, on the way to the best annulus.
ghost use Rattle.std.specs.Prelude.{◌≡◌, ◌<ℤ◌, pos, map};
ghost use Rattle.bounded_coords.specs.Clouds.{points_of};
ghost use Rattle.min_annulus.specs.DifferenceVectors.{IsDifference, cross, IsAhead};
ghost use Rattle.min_annulus.specs.LinearForms.{IsLinearForm, form_through};
ghost use Rattle.min_annulus.specs.Pairs.{IsPair};
ghost use Rattle.min_annulus.specs.Triangles.{IsTriangle, IsAroundTarget, IsExchange, origin_weights};
ghost use Rattle.answers.specs.Answers.{pair_of};

use crate::linear_forms::LinearForm;
use crate::pairs::Pair;
use answers::WeightedPair;
use arrayvec::ArrayVec;
use bounded_coords::Cloud2;
use pair_weights::push_weighted;

/// Three pairs whose difference vectors turn left around the target, a point that no line through two difference vectors meets.
#[derive(Clone, Copy)]
pub(crate) struct Triangle {
    pub(crate) a: Pair,
    pub(crate) b: Pair,
    pub(crate) c: Pair,
}

impl Triangle {
    /// A triangle around the target: e, f and -e, turned round where the target is to the right of e.
    pub(crate) fn start(cloud: Cloud2<'_>, e: Pair, f: Pair) -> Triangle
        requires e { IsPair (points_of cloud) e }
        requires f { IsPair (points_of cloud) f }
        requires ahead { IsAhead e.difference }
        requires left { pos 0 <ℤ cross e.difference f.difference }
        ensures { IsTriangle (points_of cloud.entry) result }
    {
        let back = Pair::of(cloud, e.second, e.first);
        // The target is (t, t²) for a small t, and e goes ahead: so the target is to the right of e exactly where e points up.
        if e.difference.y > 0 {
            return Triangle {
                a: back,
                b: Pair::of(cloud, f.second, f.first),
                c: e,
            };
        }
        Triangle {
            a: e,
            b: f,
            c: back,
        }
    }

    /// Takes a pair in for one of the three, so that the target stays inside. Going round, the sides of the vertices to the new difference
    /// change from right to left somewhere, since with the triangle's own sides as weights they sum to 0; the vertex that is not at this
    /// change leaves.
    pub(crate) fn exchange(self, d: Pair) -> Triangle
        requires around { IsAroundTarget self }
        requires pair { IsDifference d.difference }
        ensures around { IsAroundTarget result }
        ensures exchange { IsExchange self d result }
    {
        let a_left = self.a.difference.has_target_left(d.difference);
        let b_left = self.b.difference.has_target_left(d.difference);
        let c_left = self.c.difference.has_target_left(d.difference);
        if b_left && !a_left {
            return Triangle { c: d, ..self };
        }
        if c_left && !b_left {
            return Triangle { a: d, ..self };
        }
        Triangle { b: d, ..self }
    }

    /// The form with one value at the three pairs: it gives the plane through the three lifted differences.
    pub(crate) fn form(self) -> LinearForm
        requires { IsAroundTarget self }
        ensures value { result ≡ form_through self.a.difference self.b.difference self.c.difference }
        ensures form { IsLinearForm result }
    {
        LinearForm::through(self.a.difference, self.b.difference, self.c.difference)
    }

    /// The pairs with the weights of the origin in the triangle. Pairs without a weight are left out.
    pub(crate) fn weighted(self) -> ArrayVec<WeightedPair, 3>
        requires { IsAroundTarget self }
        ensures { map pair_of result.items ≡ origin_weights self }
    {
        let mut pairs = ArrayVec::new();
        push_weighted(
            &mut pairs,
            self.a.first,
            self.a.second,
            self.b.difference.cross(self.c.difference),
        );
        push_weighted(
            &mut pairs,
            self.b.first,
            self.b.second,
            self.c.difference.cross(self.a.difference),
        );
        push_weighted(
            &mut pairs,
            self.c.first,
            self.c.second,
            self.a.difference.cross(self.b.difference),
        );
        pairs
    }
}
