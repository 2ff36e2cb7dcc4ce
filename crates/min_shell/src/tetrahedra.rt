//! Four vertices around the target, on the way to the best shell.
ghost use Rattle.std.specs.Prelude.{◌≡◌, ◌<ℤ◌, pos, map};
ghost use Rattle.min_shell.specs.Vectors.{IsVector};
ghost use Rattle.min_shell.specs.LinearForms.{IsLinearForm};
ghost use Rattle.min_shell.specs.Targets.{IsTarget};
ghost use Rattle.min_shell.specs.Tetrahedra.{IsAroundTarget, IsExchange, form_through, origin_weights};
ghost use Rattle.answers.specs.Answers.{pair_of};

use crate::linear_forms::LinearForm;
use crate::targets::Target;
use crate::vertices::Vertex;
use answers::WeightedPair;
use arrayvec::ArrayVec;
use pair_weights::push_weighted;

/// Four vertices with the target strictly inside. The last is a pair of points.
#[derive(Clone, Copy)]
pub(crate) struct Tetrahedron {
    pub(crate) a: Vertex,
    pub(crate) b: Vertex,
    pub(crate) c: Vertex,
    pub(crate) d: Vertex,
}

impl Tetrahedron {
    /// Takes a pair in for one of the four, so that the target stays inside. The new vector leans to each vertex by some measure; the vertex
    /// to which it leans most leaves. It leans more to a than to b where, seen from the target, the way from d over c to it turns right.
    pub(crate) fn exchange(self, target: Target, e: Vertex) -> Tetrahedron
        requires target { IsTarget target }
        requires around { IsAroundTarget target self }
        requires vector { IsVector e.vector }
        requires pair { e.vector.one ≡ pos 1 }
        ensures around { IsAroundTarget target result }
        ensures exchange { IsExchange self e result }
    {
        let (a, b, c, d) = (self.a.vector, self.b.vector, self.c.vector, self.d.vector);
        let new = e.vector;
        // First a is compared with b, then c with d, and then the two that are left.
        if target.sees_right_turn(d, c, new) {
            if target.sees_right_turn(b, a, new) {
                if target.sees_right_turn(b, d, new) {
                    return self.without_a(e);
                }
                return self.without_c(e);
            }
            if target.sees_right_turn(c, b, new) {
                return self.without_a(e);
            }
            return self.without_d(e);
        }
        if target.sees_right_turn(b, a, new) {
            if target.sees_right_turn(d, a, new) {
                return self.without_b(e);
            }
            return self.without_c(e);
        }
        if target.sees_right_turn(a, c, new) {
            return self.without_b(e);
        }
        self.without_d(e)
    }

    /// With a pair for the first vertex.
    fn without_a(self, e: Vertex) -> Tetrahedron
        ensures { result ≡ record { a = self.d; b = self.c; c = self.b; d = e } }
    {
        Tetrahedron {
            a: self.d,
            b: self.c,
            c: self.b,
            d: e,
        }
    }

    /// With a pair for the second.
    fn without_b(self, e: Vertex) -> Tetrahedron
        ensures { result ≡ record { a = self.c; b = self.d; c = self.a; d = e } }
    {
        Tetrahedron {
            a: self.c,
            b: self.d,
            c: self.a,
            d: e,
        }
    }

    /// With a pair for the third.
    fn without_c(self, e: Vertex) -> Tetrahedron
        ensures { result ≡ record { a = self.b; b = self.a; c = self.d; d = e } }
    {
        Tetrahedron {
            a: self.b,
            b: self.a,
            c: self.d,
            d: e,
        }
    }

    /// With a pair for the last.
    fn without_d(self, e: Vertex) -> Tetrahedron
        ensures { result ≡ record { a = self.a; b = self.b; c = self.c; d = e } }
    {
        Tetrahedron { d: e, ..self }
    }

    /// The form with one value at the pairs, which does not rise along the directions: it gives the plane through the lifted vectors.
    pub(crate) fn form(self) -> LinearForm
        requires a { IsVector self.a.vector }
        requires b { IsVector self.b.vector }
        requires c { IsVector self.c.vector }
        requires d { IsVector self.d.vector }
        ensures value { result ≡ form_through self.a.vector self.b.vector self.c.vector self.d.vector }
        ensures form { IsLinearForm result }
    {
        let last = self.d.vector;
        LinearForm::along(
            self.a.vector.seen_from(last),
            self.c.vector.seen_from(last),
            self.b.vector.seen_from(last),
        )
    }

    /// The pairs with the weights of the origin in the tetrahedron. Vertices without a weight are left out, as directions are.
    pub(crate) fn weighted(self) -> ArrayVec<WeightedPair, 4>
        requires a { IsVector self.a.vector }
        requires b { IsVector self.b.vector }
        requires c { IsVector self.c.vector }
        requires d { IsVector self.d.vector }
        ensures { map pair_of result.items ≡ origin_weights self }
    {
        let (a, b, c, d) = (self.a.vector, self.b.vector, self.c.vector, self.d.vector);
        let mut pairs = ArrayVec::new();
        push_weighted(&mut pairs, self.a.first, self.a.second, b.cross(c).dot(d));
        push_weighted(&mut pairs, self.b.first, self.b.second, a.cross(d).dot(c));
        push_weighted(&mut pairs, self.c.first, self.c.second, a.cross(b).dot(d));
        push_weighted(&mut pairs, self.d.first, self.d.second, a.cross(c).dot(b));
        pairs
    }
}
