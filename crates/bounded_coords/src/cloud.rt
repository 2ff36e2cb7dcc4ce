//! Borrowed lists of points, plain and counted.
ghost use Rattle.std.specs.Prelude.{⊤, ◌≡◌, ◌↔◌, ◌+◌, ◌<◌, ◌≤◌, length, slice_get, Some, IsSome, IfSome};

use crate::Steps;
use crate::measure::{Measure, Reversed};
use std::alloc::AllocError;
use std::sync::ledger::Ledger;

/// The most points of a set.
pub(crate) const MOST_POINTS: usize = 10_000;

/// A borrowed list of 1 to 10000 points, numbered from 0.
pub struct Cloud<'a, P> {
    points: &'a [P],
    ghost not_empty: { 1 ≤ length points.now },
    ghost limited: { length points.now ≤ 10000 },
}

impl<'a, P> Clone for Cloud<'a, P> {
    ghost is_clone = { λ x y. y ≡ x };

    ghost is_infallible = { λ _. ⊤ };

    fn clone(&self) -> Result<Self, AllocError> {
        Ok(*self)
    }
}

impl<'a, P> Copy for Cloud<'a, P> {}

impl<'a, P> Cloud<'a, P> {
    ghost use Rattle.std.specs.Ordering.{on};
    ghost use Rattle.bounded_coords.specs.Clouds.{points_of, counted_points};
    ghost use Rattle.bounded_coords.specs.Firsts.{IsFirstLeast, IsFirstGreatest};

    /// The cloud of these points, or None where there are none or more than 10000.
    pub fn from_slice(points: &'a [P]) -> Option<Cloud<'a, P>>
        ensures size { IsSome result ↔ ((1 ≤ length points.now) × (length points.now ≤ 10000)) }
        ensures points { IfSome result (λ c. points_of c ≡ points.now) }
    {
        if points.is_empty() || points.len() > MOST_POINTS {
            return None;
        }
        Some(Cloud { points })
    }

    /// How many points there are.
    pub fn len(self) -> u32
        ensures count { result ≡ length (points_of self.entry) }
        ensures not_empty { 1 ≤ result }
        ensures limited { result ≤ 10000 }
    {
        self.points.len() as u32
    }

    /// The point of this number.
    pub fn at(self, i: u32) -> &'a P
        requires { i < length (points_of self) }
        ensures { slice_get (points_of self.entry) i ≡ Some result.now }
    {
        &self.points[i as usize]
    }

    /// The number of the point whose value is least, and of the first of several.
    pub fn first_least<M: Measure<P>>(self, measure: &M) -> u32
        ensures { IsFirstLeast (on (M.measured measure.now) M.Value.cmp) (points_of self.entry) result }
    {
        let mut least = measure.at(self.at(0));
        let mut number = 0;
        'points: for i in 1..self.len() {
            let value = measure.at(self.at(i));
            if value < least {
                least = value;
                number = i;
            }
        }
        number
    }

    /// The number of the point whose value is greatest, and of the first of several.
    pub fn first_greatest<M: Measure<P>>(self, measure: &M) -> u32
        ensures { IsFirstGreatest (on (M.measured measure.now) M.Value.cmp) (points_of self.entry) result }
    {
        self.first_least(&Reversed { measure })
    }

    /// The same points, each access to which is counted.
    pub fn counted(self) -> Counted<'a, P>
        ensures { counted_points result ≡ points_of self.entry }
    {
        Counted { cloud: self }
    }
}

/// A cloud whose points are reached by counted steps alone.
pub struct Counted<'a, P> {
    cloud: Cloud<'a, P>,
}

impl<'a, P> Clone for Counted<'a, P> {
    ghost is_clone = { λ x y. y ≡ x };

    ghost is_infallible = { λ _. ⊤ };

    fn clone(&self) -> Result<Self, AllocError> {
        Ok(*self)
    }
}

impl<'a, P> Copy for Counted<'a, P> {}

impl<'a, P> Counted<'a, P> {
    ghost use Rattle.std.specs.Ordering.{on};
    ghost use Rattle.bounded_coords.specs.Clouds.{counted_points};
    ghost use Rattle.bounded_coords.specs.Firsts.{IsFirstLeast, IsFirstGreatest};

    /// How many points there are. It counts no step.
    pub fn len(self) -> u32
        ensures count { result ≡ length (counted_points self.entry) }
        ensures not_empty { 1 ≤ result }
        ensures limited { result ≤ 10000 }
    {
        self.cloud.len()
    }

    /// The point of this number, at one step.
    pub fn point<L: Ledger>(self, i: u32, steps: &mut Steps<L>) -> &'a P
        requires { i < length (counted_points self) }
        ensures point { slice_get (counted_points self.entry) i ≡ Some result.now }
        ensures step { steps.new ≡ steps.old + 1 }
    {
        steps.tick();
        self.cloud.at(i)
    }

    /// The number of the point whose value is least, and of the first of several, at one step a point.
    pub fn first_least<M: Measure<P>, L: Ledger>(self, measure: &M, steps: &mut Steps<L>) -> u32
        ensures found { IsFirstLeast (on (M.measured measure.now) M.Value.cmp) (counted_points self.entry) result }
        ensures steps { steps.new ≡ steps.old + length (counted_points self.entry) }
    {
        let mut lowest = measure.at(self.point(0, steps));
        let mut number = 0;
        'points: for i in 1..self.len() {
            let value = measure.at(self.point(i, steps));
            if value < lowest {
                lowest = value;
                number = i;
            }
        }
        number
    }

    /// The number of the point whose value is greatest, and of the first of several, at one step a point.
    pub fn first_greatest<M: Measure<P>, L: Ledger>(self, measure: &M, steps: &mut Steps<L>) -> u32
        ensures found { IsFirstGreatest (on (M.measured measure.now) M.Value.cmp) (counted_points self.entry) result }
        ensures steps { steps.new ≡ steps.old + length (counted_points self.entry) }
    {
        self.first_least(&Reversed { measure }, steps)
    }
}
