//! Values of points, by which a pass over a cloud chooses one.
ghost use Rattle.std.specs.Prelude.{◌≡◌};

use std::cmp::Reverse;

/// A value of each point. A pass over a cloud finds the point where it is least or greatest.
pub trait Measure<P> {
    /// What the values are. The narrower they are, the faster is the pass.
    type Value: Copy + Ord;

    ghost measured: { Self → P → Self.Value };

    /// The value of a point.
    fn at(&self, point: &P) -> Self::Value
        ensures { result ≡ measured self.now point.now };
}

/// The same values in the opposite order.
#[derive(Drop)]
pub(crate) struct Reversed<'m, M> {
    pub(crate) measure: &'m M,
}

impl<'m, P, M: Measure<P>> Measure<P> for Reversed<'m, M> {
    type Value = Reverse<M::Value>;

    ghost measured = { λ r p. record { 0 = M.measured r.measure.now p } };

    fn at(&self, point: &P) -> Reverse<M::Value> {
        Reverse(self.measure.at(point))
    }
}
