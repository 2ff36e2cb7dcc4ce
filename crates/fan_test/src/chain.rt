//! Chains, and whether their points are furthest out.
ghost use Rattle.std.specs.Prelude.{◌≡◌, ◌↔◌, ◌+◌, ◌^◌, ◌<◌, ◌≤◌, ◌≤ℤ◌, ℕ, pos, List, length, All, IsTrue, IfSome, IsNone};
ghost use Rattle.bounds_model.specs.Numbers as numbers;
ghost use Rattle.bounds_model.specs.Plane.{PlanePoint, point_at, dot as product};
ghost use Rattle.bounds_model.specs.Fans.{IsShort};
ghost use Rattle.bounded_coords.specs.Clouds.{points_of};
ghost use Rattle.fan_test.specs.Directions.{direction_of};
ghost use Rattle.fan_test.specs.Chains.{Turns, Leads, AreListed, Encloses, AreJoined, IsWithin, IsWithinEach};
ghost use Rattle.fan_test.specs.Chains.{IsArc, AreEdges, AreNamed, IsEdgeFor};

use crate::direction::Direction;
use bounded_coords::{Cloud2, Point2};

/// Directions with a cone from each to the next, and a point of a cloud for each cone.
pub trait Chain {
    ghost cones: { Self → ℕ };

    ghost directions: { Self → ℕ → PlanePoint };

    ghost points: { Self → ℕ → PlanePoint };

    ghost cloud: { Self → List PlanePoint };

    /// How many cones there are.
    fn len(&self) -> u32
        ensures { result ≡ cones self.now };

    /// The direction that cone i begins at, or the last one.
    fn direction(&self, i: u32) -> Direction
        requires { i ≤ cones self.now }
        ensures value { direction_of result ≡ directions self.now i }
        ensures short { IsShort (direction_of result) };

    /// The number of the point of cone i.
    fn number(&self, i: u32) -> u32
        requires { i < cones self.now }
        ensures listed { result < length (cloud self.now) }
        ensures point { point_at (cloud self.now) result ≡ points self.now i };

    /// The point of cone i.
    fn point(&self, i: u32) -> Point2
        requires { i < cones self.now }
        ensures { result ≡ points self.now i };
}

/// The most points of a cloud.
const MOST_POINTS: usize = 10_000;

/// The direction to the right.
pub const EAST: Direction = Direction { x: 1, y: 0 };

/// The direction upwards.
pub const NORTH: Direction = Direction { x: 0, y: 1 };

/// The direction to the left.
pub const WEST: Direction = Direction { x: -1, y: 0 };

/// Whether the directions lead from first to last, each to the left of the one before.
pub fn leads<C: Chain>(chain: &C, first: Direction, last: Direction) -> bool
    ensures { IsTrue result ↔ Leads (C.directions chain.now) (C.cones chain.now) (direction_of first) (direction_of last) }
{
    if !chain.direction(0).is(first) {
        return false;
    }
    if !chain.direction(chain.len()).is(last) {
        return false;
    }
    turns(chain)
}

/// Whether each direction is to the left of the one before.
fn turns<C: Chain>(chain: &C) -> bool
    ensures { IsTrue result ↔ Turns (C.directions chain.now) (C.cones chain.now) }
{
    let mut before = chain.direction(0);
    for i in 0..chain.len() {
        let after = chain.direction(i + 1);
        if before.cross(after) <= 0 {
            return false;
        }
        before = after;
    }
    true
}

/// Whether no point is further out than a cone's point, in each of the two directions that the cone is between.
///
/// The direction at which a cone ends begins the next one. If the points of both are equally far out in it, then one of them speaks
/// for the other, and if they are not, then one is further out than the other. So each direction is compared with the points once.
pub fn encloses<C: Chain>(chain: &C, cloud: Cloud2<'_>) -> bool
    requires same { C.cloud chain.now ≡ points_of cloud }
    requires turns { Turns (C.directions chain.now) (C.cones chain.now) }
    requires listed { AreListed (points_of cloud) (C.points chain.now) (C.cones chain.now) }
    ensures { IsTrue result ↔ Encloses (points_of cloud.entry) (C.directions chain.now) (C.points chain.now) (C.cones chain.now) }
{
    let cones = chain.len();
    if cones == 0 {
        return true;
    }
    if !are_joined(chain) {
        return false;
    }
    if !are_within(chain, cones, cones - 1, cloud) {
        return false;
    }
    are_within_each(chain, cloud)
}

/// Whether the points of neighbouring cones are equally far out in the direction between them.
fn are_joined<C: Chain>(chain: &C) -> bool
    requires { 0 < C.cones chain.now }
    ensures { IsTrue result ↔ AreJoined (C.directions chain.now) (C.points chain.now) (C.cones chain.now) }
{
    let last = chain.len() - 1;
    let mut before = chain.point(0);
    for i in 0..last {
        let after = chain.point(i + 1);
        if !is_joint(chain.direction(i + 1), before, after) {
            return false;
        }
        before = after;
    }
    true
}

/// Whether two points are equally far out in a direction.
fn is_joint(direction: Direction, before: Point2, after: Point2) -> bool
    requires { IsShort (direction_of direction) }
    ensures { IsTrue result ↔ (product (direction_of direction) before ≡ product (direction_of direction) after) }
{
    direction.dot(before) == direction.dot(after)
}

/// Whether no point is further out than a cone's point in the direction that the cone begins at.
///
/// Directions within a right angle of the first of them are an arc. Along that first direction the points of an arc stand in
/// order, joined by edges that the other directions are normals of. So a point is below all of them if it is below the
/// edge that it stands above, which is searched by halving: n points and m cones take at most about n log m steps. A chain that winds around has an arc more for each right angle.
fn are_within_each<C: Chain>(chain: &C, cloud: Cloud2<'_>) -> bool
    requires same { C.cloud chain.now ≡ points_of cloud }
    requires turns { Turns (C.directions chain.now) (C.cones chain.now) }
    requires listed { AreListed (points_of cloud) (C.points chain.now) (C.cones chain.now) }
    requires joined { AreJoined (C.directions chain.now) (C.points chain.now) (C.cones chain.now) }
    ensures { IsTrue result ↔ All (IsWithinEach (C.directions chain.now) (C.points chain.now) 0 (C.cones chain.now)) (points_of cloud.entry) }
{
    let mut from = 0;
    'arcs: while from < chain.len() {
        match arc_end(chain, from) {
            None => return false,
            Some(to) => {
                if !are_below(chain, from, to, cloud) {
                    return false;
                }
                from = to;
            }
        }
    }
    true
}

/// The end of an arc that begins at a cone, or None where two of its points are not joined by an edge.
///
/// Up to half a turn would be an arc. It ends past a right angle, so that few of its points dominate most of a cloud.
fn arc_end<C: Chain>(chain: &C, from: u32) -> Option<u32>
    requires cone { from < C.cones chain.now }
    requires joined { AreJoined (C.directions chain.now) (C.points chain.now) (C.cones chain.now) }
    ensures arc { IfSome result (λ to. (from < to) × (to ≤ C.cones chain.now) × IsArc (C.directions chain.now) (C.points chain.now) from to) }
    ensures none { IsNone result → ¬ AreEdges (C.directions chain.now) (C.points chain.now) from (C.cones chain.now) }
{
    let first = chain.direction(from);
    let normal = first.turned();
    let end = chain.len();
    let mut before = first.dot(chain.point(from));
    'edges: for to in from + 1..end {
        let next = chain.direction(to);
        if first.cross(next) <= 0 {
            return Some(to);
        }
        if normal.cross(next) > 0 {
            return Some(to);
        }
        let after = first.dot(chain.point(to));
        if after > before {
            return None;
        }
        before = after;
    }
    Some(end)
}

/// Whether all points are below an arc. Up to two directions are compared with the points one by one, since a chain that winds around
/// has many such arcs.
fn are_below<C: Chain>(chain: &C, from: u32, to: u32, cloud: Cloud2<'_>) -> bool
    requires same { C.cloud chain.now ≡ points_of cloud }
    requires turns { Turns (C.directions chain.now) (C.cones chain.now) }
    requires some { from < to }
    requires limit { to ≤ C.cones chain.now }
    requires arc { IsArc (C.directions chain.now) (C.points chain.now) from to }
    ensures { IsTrue result ↔ All (IsWithinEach (C.directions chain.now) (C.points chain.now) from to) (points_of cloud.entry) }
{
    let cones = to - from;
    if cones > 2 {
        return are_below_arc(chain, from, to, cloud);
    }
    if !are_within(chain, from, from, cloud) {
        return false;
    }
    if cones == 1 {
        return true;
    }
    are_within(chain, from + 1, from + 1, cloud)
}

/// Whether no point is further out in direction i than the point of cone k.
fn are_within<C: Chain>(chain: &C, i: u32, k: u32, cloud: Cloud2<'_>) -> bool
    requires direction { i ≤ C.cones chain.now }
    requires cone { k < C.cones chain.now }
    ensures { IsTrue result ↔ All (IsWithin (C.directions chain.now) (C.points chain.now) i k) (points_of cloud.entry) }
{
    let direction = chain.direction(i);
    let limit = direction.dot(chain.point(k));
    for j in 0..cloud.len() {
        if !reaches_at_most(direction, limit, *cloud.at(j)) {
            return false;
        }
    }
    true
}

/// Whether a point is no further out than the limit.
fn reaches_at_most(direction: Direction, limit: i64, p: Point2) -> bool
    requires { IsShort (direction_of direction) }
    ensures { IsTrue result ↔ (product (direction_of direction) p ≤ℤ limit) }
{
    direction.dot(p) <= limit
}

/// Whether all points are below an arc of more than one cone, in one pass.
///
/// A point that a cone of the arc names is below the arc. Each direction of an arc is a sum of its first and its last one, times
/// numbers of at least 0. So what is no further out in these two than a point of the arc is below the arc too: that point dominates
/// it. The ends of an arc dominate the points of other arcs, and its middle most of a cloud. For the rest the edge is searched.
fn are_below_arc<C: Chain>(chain: &C, from: u32, to: u32, cloud: Cloud2<'_>) -> bool
    requires same { C.cloud chain.now ≡ points_of cloud }
    requires turns { Turns (C.directions chain.now) (C.cones chain.now) }
    requires inner { from + 1 < to }
    requires limit { to ≤ C.cones chain.now }
    requires arc { IsArc (C.directions chain.now) (C.points chain.now) from to }
    ensures { IsTrue result ↔ All (IsWithinEach (C.directions chain.now) (C.points chain.now) from to) (points_of cloud.entry) }
{
    let first = chain.direction(from);
    let last = chain.direction(to - 1);
    let begin = reach_of(first, last, chain.point(from));
    let middle = reach_of(first, last, chain.point(from + (to - from) / 2));
    let end = reach_of(first, last, chain.point(to - 1));
    let named = named_on(chain, from, to);
    for i in 0..cloud.len() {
        if named[i as usize] {
            continue;
        }
        let p = *cloud.at(i);
        let out = reach_of(first, last, p);
        // The least of three, without a branch for each, since which of them dominates a point can't be foretold.
        let least = excess(begin, out).min(excess(middle, out));
        if least.min(excess(end, out)) <= 0 {
            continue;
        }
        if !is_below_arc(chain, from, to, first, p) {
            return false;
        }
    }
    true
}

/// How far out a point is in the first and in the last direction of an arc.
#[derive(Clone, Copy, Debug, PartialEq, Eq)]
struct Reach {
    first: i64,
    last: i64,
}

/// How far out a point is in two directions.
fn reach_of(first: Direction, last: Direction, p: Point2) -> Reach
    requires first { IsShort (direction_of first) }
    requires last { IsShort (direction_of last) }
    ensures first { result.first ≡ product (direction_of first) p }
    ensures last { result.last ≡ product (direction_of last) p }
    ensures first_small { numbers.IsWithin (2 ^ 38) result.first }
    ensures last_small { numbers.IsWithin (2 ^ 38) result.last }
{
    Reach {
        first: first.dot(p),
        last: last.dot(p),
    }
}

/// How far p is beyond q, in that of two directions in which it is further. At most 0 where q dominates it.
fn excess(q: Reach, p: Reach) -> i64
    requires q_first { numbers.IsWithin (2 ^ 38) q.first }
    requires q_last { numbers.IsWithin (2 ^ 38) q.last }
    requires p_first { numbers.IsWithin (2 ^ 38) p.first }
    requires p_last { numbers.IsWithin (2 ^ 38) p.last }
    ensures { (result ≤ℤ pos 0) ↔ ((p.first ≤ℤ q.first) × (p.last ≤ℤ q.last)) }
{
    (p.first - q.first).max(p.last - q.last)
}

/// Which points the cones of an arc name.
fn named_on<C: Chain>(chain: &C, from: u32, to: u32) -> [bool; MOST_POINTS]
    requires order { from ≤ to }
    requires limit { to ≤ C.cones chain.now }
    requires few { length (C.cloud chain.now) ≤ 10000 }
    ensures { AreNamed (C.cloud chain.now) (C.points chain.now) from to result }
{
    let mut named = [false; MOST_POINTS];
    for i in from..to {
        named[chain.number(i) as usize] = true;
    }
    named
}

/// Whether a point is below an arc of more than one cone.
fn is_below_arc<C: Chain>(chain: &C, from: u32, to: u32, first: Direction, p: Point2) -> bool
    requires turns { Turns (C.directions chain.now) (C.cones chain.now) }
    requires inner { from + 1 < to }
    requires limit { to ≤ C.cones chain.now }
    requires arc { IsArc (C.directions chain.now) (C.points chain.now) from to }
    requires first { direction_of first ≡ C.directions chain.now from }
    requires short { IsShort (direction_of first) }
    ensures { IsTrue result ↔ IsWithinEach (C.directions chain.now) (C.points chain.now) from to p }
{
    if !is_within(chain, from, from, p) {
        return false;
    }
    let edge = edge_for(chain, from, to, first, p);
    is_within(chain, edge + 1, edge + 1, p)
}

/// Whether a point is no further out in direction i than the point of cone k.
fn is_within<C: Chain>(chain: &C, i: u32, k: u32, p: Point2) -> bool
    requires direction { i ≤ C.cones chain.now }
    requires cone { k < C.cones chain.now }
    ensures { IsTrue result ↔ IsWithin (C.directions chain.now) (C.points chain.now) i k p }
{
    let direction = chain.direction(i);
    direction.dot(p) <= direction.dot(chain.point(k))
}

/// The edge of an arc that decides for a point, by halving.
fn edge_for<C: Chain>(chain: &C, from: u32, to: u32, first: Direction, p: Point2) -> u32
    requires inner { from + 1 < to }
    requires limit { to ≤ C.cones chain.now }
    requires arc { IsArc (C.directions chain.now) (C.points chain.now) from to }
    requires first { direction_of first ≡ C.directions chain.now from }
    requires short { IsShort (direction_of first) }
    ensures { IsEdgeFor (C.directions chain.now) (C.points chain.now) from to p result }
{
    let along = first.dot(p);
    let mut low = from;
    let mut size = to - 1 - from;
    'halves: while size > 1 {
        let half = size / 2;
        let middle = low + half;
        // Either half leaves the same size, so that each point takes as many rounds.
        low = if first.dot(chain.point(middle)) < along {
            low
        } else {
            middle
        };
        size -= half;
    }
    low
}
