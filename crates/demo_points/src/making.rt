//! The points that a demonstration is made of.
ghost use Rattle.std.specs.Prelude.{◌≡◌, ◌≢◌, ◌+◌, pos, ◌*◌, ◌-◌, ◌^◌, ◌<◌, ◌≤◌, [], IfOk, OnOk};
ghost use Rattle.bounds_model.specs.Numbers.{IsWithin};
ghost use Rattle.bounds_model.specs.Plane.{plane_limit};
ghost use Rattle.bounds_model.specs.Space.{space_limit};
ghost use Rattle.bounds_model.specs.Asks.{Suits, shape_of, unscaled};
ghost use Rattle.bounds_model.specs.Demo.{next_state, state_after, drawn, plane_coordinate, space_coordinate, plane_points, space_points, demo_sets};
ghost use Rattle.bounded_coords.specs.Asked.{asked};
ghost use Rattle.demo_points.specs.Across.{across};

use bounded_coords::{
    Ask, OutOfMemory, OwnedSets, Point2, Point3, Points2, Points3, PushFault, Shape,
};
use std::alloc::Global;

/// Makes point sets for what is asked from a seed, with `count` points in each, at scale 1: two sets of space for a distance, one for
/// a sphere and a shell, and one set of the plane for everything else. The same seed makes the same points.
pub fn make(alloc: Global, ask: &Ask, seed: u32, count: u32) -> Result<OwnedSets, OutOfMemory>
    requires seed { seed < 2 ^ 31 }
    requires some { 1 ≤ count }
    requires most { count ≤ 10000 }
    ensures sets { IfOk result (λ points. points ≡ unscaled (demo_sets (shape_of (asked ask.now)) seed count)) }
    ensures suits { IfOk result (λ points. Suits (asked ask.now) points.sets) }
{
    let mut draws = Draws { state: seed };
    match ask.shape() {
        Shape::OneSpace => Ok(OwnedSets::space(draws.space_points(alloc, Across::Whole, count)?)),
        Shape::TwoSpace => {
            let p = draws.space_points(alloc, Across::Left, count)?;
            let q = draws.space_points(alloc, Across::Right, count)?;
            Ok(OwnedSets::two(p, q))
        }
        Shape::OnePlane | Shape::PlaneOrBare => Ok(OwnedSets::plane(draws.plane_points(
            alloc, count,
        )?)),
    }
}

/// Where the x of a point of space may lie.
#[derive(Clone, Copy)]
enum Across {
    /// Anywhere.
    Whole,
    /// Below 0.
    Left,
    /// Above 0.
    Right,
}

/// A linear congruential generator. Its state is below 2^31.
#[derive(Drop)]
struct Draws {
    state: u32,
    ghost limited: { state < 2 ^ 31 },
}

impl Draws {
    /// The next number, from 0 to 2097151.
    fn next(&mut self) -> i64
        ensures state { self.new.state ≡ next_state self.old.state }
        ensures value { result ≡ pos (drawn self.new.state) }
    {
        self.state = ((u64::from(self.state) * 1_103_515_245 + 12_345) % (1 << 31)) as u32;
        i64::from(self.state / 1024)
    }

    /// The next coordinate of the plane.
    fn plane_coordinate(&mut self) -> i64
        ensures state { self.new.state ≡ next_state self.old.state }
        ensures value { result ≡ plane_coordinate self.new.state }
        ensures bounds { IsWithin plane_limit result }
    {
        self.next() % 400_001 - 200_000
    }

    /// The next coordinate of space.
    fn space_coordinate(&mut self, part: Across) -> i64
        ensures state { self.new.state ≡ next_state self.old.state }
        ensures value { result ≡ across part self.new.state }
        ensures bounds { IsWithin space_limit result }
    {
        match part {
            Across::Whole => self.next() % 16_001 - 8_000,
            Across::Left => self.next() % 8_000 - 8_000,
            Across::Right => self.next() % 8_000 + 1,
        }
    }

    /// The next point of the plane.
    fn plane_point(&mut self) -> Point2
        ensures state { self.new.state ≡ state_after 2 self.old.state }
        ensures point { result ≡ record { x = plane_coordinate (state_after 1 self.old.state); y = plane_coordinate (state_after 2 self.old.state) } }
    {
        let x = self.plane_coordinate();
        let y = self.plane_coordinate();
        match Point2::new(x, y) {
            Some(p) => p,
            None => unreachable!(),
        }
    }

    /// The next point of space, with its x in this part.
    fn space_point(&mut self, part: Across) -> Point3
        ensures state { self.new.state ≡ state_after 3 self.old.state }
        ensures point { result ≡ record {
          x = across part (state_after 1 self.old.state);
          y = space_coordinate (state_after 2 self.old.state);
          z = space_coordinate (state_after 3 self.old.state);
        } }
    {
        let x = self.space_coordinate(part);
        let y = self.space_coordinate(Across::Whole);
        let z = self.space_coordinate(Across::Whole);
        match Point3::new(x, y, z) {
            Some(p) => p,
            None => unreachable!(),
        }
    }

    /// The next points of the plane, so many.
    fn plane_points(&mut self, alloc: Global, count: u32) -> Result<Points2, OutOfMemory>
        requires { count ≤ 10000 }
        ensures points { IfOk result (λ points. points ≡ plane_points self.old.state count) }
    {
        let mut points = Points2::new(alloc);
        'points: for _ in 0..count {
            match points.push(self.plane_point()) {
                Ok(()) => {}
                Err(PushFault::OutOfMemory) => return Err(OutOfMemory),
                Err(PushFault::Full) => unreachable!(),
            }
        }
        Ok(points)
    }

    /// The next points of space, so many, with their x in this part.
    fn space_points(
        &mut self,
        alloc: Global,
        part: Across,
        count: u32,
    ) -> Result<Points3, OutOfMemory>
        requires { count ≤ 10000 }
        ensures points { IfOk result (λ points. points ≡ space_points (across part) self.old.state count) }
        ensures state { OnOk result (self.new.state ≡ state_after (3 * count) self.old.state) }
    {
        let mut points = Points3::new(alloc);
        'points: for _ in 0..count {
            match points.push(self.space_point(part)) {
                Ok(()) => {}
                Err(PushFault::OutOfMemory) => return Err(OutOfMemory),
                Err(PushFault::Full) => unreachable!(),
            }
        }
        Ok(points)
    }
}
