//! Empty rectangles: an axis-parallel rectangle in a frame with no point strictly inside it, than which none is larger.
ghost use Rattle.std.specs.Prelude.{◌≡◌, ◌↔◌, ◌<◌, ◌^◌, pos, ◌-ℤ◌, ◌≤ℤ◌, ◌<ℤ◌, length, IsTrue, IfOk, OnErr, MatchOption};
ghost use Rattle.bounds_model.specs.Plane.{point_at};
ghost use Rattle.bounds_model.specs.EmptyRectangle.{IsStrictlyInside, area};
ghost use Rattle.bounds_model.specs.EmptyAnswer.{IsBlockerBelow, NamesBlockers, IsEmpty, BlocksVertical, BlocksLevel, AreBlocked};
ghost use Rattle.bounds_model.specs.Asks.{ask_empty};
ghost use Rattle.bounds_model.specs.Answers.{Passes, IsBest, empty};
ghost use Rattle.bounded_coords.specs.Clouds.{points_of};
ghost use Rattle.answers.specs.Answers.{blocker_of, empty_of};
ghost use Rattle.empty_rectangle.specs.Points.{points_in, HasPointInside};
ghost use Rattle.empty_check.specs.RestrictedRectangles.{sets_of, LiesIn, IsRestricted, IsRestrictedTo, RestVertical, RestLevel};

use answers::{Blocker, EmptyAnswer};
use bounded_coords::{Cloud2, Frame, OutOfMemory, Point2};
use empty_rectangle::is_none_larger;
use exact_fractions::Frac;
use optimality::answer::passing_answers_are_best;
use std::alloc::Global;

/// Whether the rectangle lies in the frame, has no point strictly inside it and the printed area, rests with each side on what
/// the answer says, and no other one is larger (CGAL manual, Inscribed Areas, `Largest_empty_iso_rectangle_2`). The points show
/// that: between every two heights no gap from one x to the next has more than the area. Memory is wanted for that test alone,
/// where a point is strictly inside the frame, and want of memory is the only error.
pub fn check_empty(
    alloc: Global,
    cloud: Option<Cloud2<'_>>,
    frame: Frame,
    a: &EmptyAnswer,
) -> Result<bool, OutOfMemory>
    ensures passes { IfOk result (λ yes. IsTrue yes ↔ Passes (ask_empty frame) (sets_of cloud.entry) (empty (empty_of a.now))) }
    ensures best { IfOk result (λ yes. IsTrue yes → IsBest (ask_empty frame) (sets_of cloud.entry) (empty (empty_of a.now))) }
    ensures memory { OnErr result (IsRestricted frame (points_in cloud.entry) (empty_of a.now) × HasPointInside frame (points_in cloud.entry)) }
{
    passing_answers_are_best();
    match restricted_area(cloud, frame, a) {
        Some(area) => is_none_larger(alloc, cloud, frame, area),
        None => Ok(false),
    }
}

/// The area, in squared units, where the rectangle meets all that is asked of it alone: first the limits, then the size, then the
/// rest.
fn restricted_area(cloud: Option<Cloud2<'_>>, frame: Frame, a: &EmptyAnswer) -> Option<u64>
    ensures { let points = points_in cloud.entry in
        MatchOption result (IsRestricted frame points (empty_of a.now) → ⊥) (IsRestrictedTo frame points (empty_of a.now)) }
{
    let rectangle = rectangle_in(frame, a)?;
    if !name_points(cloud, a) {
        return None;
    }
    let area = area_of(rectangle);
    // Behind this the printed size is a number of 64 bits. The search for a larger one comes last, since it alone takes memory.
    if !is_area(&a.size, area) {
        return None;
    }
    if !is_empty(cloud, rectangle) {
        return None;
    }
    if !are_blocked(cloud, frame, rectangle, a) {
        return None;
    }
    Some(area)
}

// ---- the limits

/// The rectangle, where it lies in the frame and has a width and a height.
fn rectangle_in(frame: Frame, a: &EmptyAnswer) -> Option<Frame>
    ensures { let box = (empty_of a.now).box in MatchOption result (LiesIn frame box → ⊥) (λ rectangle. LiesIn frame box × (rectangle ≡ box)) }
{
    let l = coordinate(a.l, frame.l(), frame.r())?;
    let r = coordinate(a.r, frame.l(), frame.r())?;
    let b = coordinate(a.b, frame.b(), frame.t())?;
    let t = coordinate(a.t, frame.b(), frame.t())?;
    Frame::new(l, b, r, t)
}

/// The number, where it lies from `low` to `high`.
fn coordinate(z: i128, low: i32, high: i32) -> Option<i64>
    ensures { MatchOption result (low ≤ℤ z × z ≤ℤ high → ⊥) (λ v. (v ≡ z) × (low ≤ℤ z) × (z ≤ℤ high)) }
{
    if z < i128::from(low) {
        return None;
    }
    if i128::from(high) < z {
        return None;
    }
    Some(z as i64)
}

/// Whether each blocker is a side of the frame or the number of a point.
fn name_points(cloud: Option<Cloud2<'_>>, a: &EmptyAnswer) -> bool
    ensures { IsTrue result ↔ NamesBlockers (points_in cloud.entry) (empty_of a.now) }
{
    let count = point_count(cloud);
    names_point(a.left, count)
        && names_point(a.bottom, count)
        && names_point(a.right, count)
        && names_point(a.top, count)
}

/// How many points there are.
fn point_count(cloud: Option<Cloud2<'_>>) -> u32
    ensures { result ≡ length (points_in cloud.entry) }
{
    match cloud {
        Some(cloud) => cloud.len(),
        None => 0,
    }
}

/// Whether the blocker is a side of the frame or one of so many points.
fn names_point(by: Blocker, count: u32) -> bool
    ensures { IsTrue result ↔ IsBlockerBelow count (blocker_of by) }
{
    match by {
        Blocker::Side => true,
        Blocker::Point(number) => number < count,
    }
}

// ---- the size

/// The area of the rectangle, in squared units.
fn area_of(rectangle: Frame) -> u64
    ensures { pos result ≡ area rectangle }
{
    length(rectangle.l(), rectangle.r()) * length(rectangle.b(), rectangle.t())
}

/// How far the one coordinate is above the other.
fn length(low: i32, high: i32) -> u64
    requires { low ≤ℤ high }
    ensures length { pos result ≡ (high -ℤ low) }
    ensures bound { result < 2 ^ 32 }
{
    u64::from(high.abs_diff(low))
}

/// Whether the size is this area.
fn is_area(size: &Frac, area: u64) -> bool
    ensures { IsTrue result ↔ (size.now ≡ record { n = pos area; d = pos 1 }) }
{
    size.den() == 1 && size.num() == u128::from(area)
}

// ---- the points inside

/// Whether no point is strictly inside the rectangle.
fn is_empty(cloud: Option<Cloud2<'_>>, rectangle: Frame) -> bool
    ensures { IsTrue result ↔ IsEmpty (points_in cloud.entry) rectangle }
{
    match cloud {
        Some(cloud) => is_none_inside(cloud, rectangle),
        None => true,
    }
}

/// Whether no point of the cloud is strictly inside the rectangle.
fn is_none_inside(cloud: Cloud2<'_>, rectangle: Frame) -> bool
    ensures { IsTrue result ↔ IsEmpty (points_of cloud.entry) rectangle }
{
    for i in 0..cloud.len() {
        if is_inside(cloud.at(i), rectangle) {
            return false;
        }
    }
    true
}

/// Whether the point is strictly inside the rectangle.
fn is_inside(p: &Point2, rectangle: Frame) -> bool
    ensures { IsTrue result ↔ IsStrictlyInside rectangle p.now }
{
    is_across(p, rectangle) && is_along(p, rectangle)
}

/// Whether the point is strictly between the vertical sides.
fn is_across(p: &Point2, rectangle: Frame) -> bool
    ensures { IsTrue result ↔ ((rectangle.left <ℤ p.now.x) × (p.now.x <ℤ rectangle.right)) }
{
    rectangle.l() < p.x() && p.x() < rectangle.r()
}

/// Whether the point is strictly between the level sides.
fn is_along(p: &Point2, rectangle: Frame) -> bool
    ensures { IsTrue result ↔ ((rectangle.bottom <ℤ p.now.y) × (p.now.y <ℤ rectangle.top)) }
{
    rectangle.b() < p.y() && p.y() < rectangle.t()
}

// ---- what the sides rest on

/// Whether each side of the rectangle rests on what the answer says.
fn are_blocked(cloud: Option<Cloud2<'_>>, frame: Frame, rectangle: Frame, a: &EmptyAnswer) -> bool
    requires { NamesBlockers (points_in cloud) (empty_of a.now) }
    ensures { IsTrue result ↔ AreBlocked frame (points_in cloud.entry) (record (empty_of a.now) { box = rectangle }) }
{
    rest_vertical(cloud, frame, rectangle, a.left, a.right)
        && rest_level(cloud, frame, rectangle, a.bottom, a.top)
}

/// Whether the left side and the right side rest on these.
fn rest_vertical(
    cloud: Option<Cloud2<'_>>,
    frame: Frame,
    rectangle: Frame,
    left: Blocker,
    right: Blocker,
) -> bool
    requires left { IsBlockerBelow (length (points_in cloud)) (blocker_of left) }
    requires right { IsBlockerBelow (length (points_in cloud)) (blocker_of right) }
    ensures { IsTrue result ↔ RestVertical frame (points_in cloud.entry) rectangle (blocker_of left) (blocker_of right) }
{
    rests_vertical(cloud, left, rectangle.l(), frame.l(), rectangle)
        && rests_vertical(cloud, right, rectangle.r(), frame.r(), rectangle)
}

/// Whether the bottom and the top rest on these.
fn rest_level(
    cloud: Option<Cloud2<'_>>,
    frame: Frame,
    rectangle: Frame,
    bottom: Blocker,
    top: Blocker,
) -> bool
    requires bottom { IsBlockerBelow (length (points_in cloud)) (blocker_of bottom) }
    requires top { IsBlockerBelow (length (points_in cloud)) (blocker_of top) }
    ensures { IsTrue result ↔ RestLevel frame (points_in cloud.entry) rectangle (blocker_of bottom) (blocker_of top) }
{
    rests_level(cloud, bottom, rectangle.b(), frame.b(), rectangle)
        && rests_level(cloud, top, rectangle.t(), frame.t(), rectangle)
}

/// Whether a vertical side of the rectangle, at x, is on the frame's, or goes through the point between its ends.
fn rests_vertical(
    cloud: Option<Cloud2<'_>>,
    by: Blocker,
    x: i32,
    frame_x: i32,
    rectangle: Frame,
) -> bool
    requires { IsBlockerBelow (length (points_in cloud)) (blocker_of by) }
    ensures { IsTrue result ↔ BlocksVertical (points_in cloud.entry) frame_x x rectangle.bottom rectangle.top (blocker_of by) }
{
    match by {
        Blocker::Side => x == frame_x,
        Blocker::Point(number) => {
            let p = point(cloud, number);
            p.x() == x && is_along(p, rectangle)
        }
    }
}

/// Whether a level side of the rectangle, at y, is on the frame's, or goes through the point between its ends.
fn rests_level(
    cloud: Option<Cloud2<'_>>,
    by: Blocker,
    y: i32,
    frame_y: i32,
    rectangle: Frame,
) -> bool
    requires { IsBlockerBelow (length (points_in cloud)) (blocker_of by) }
    ensures { IsTrue result ↔ BlocksLevel (points_in cloud.entry) frame_y y rectangle.left rectangle.right (blocker_of by) }
{
    match by {
        Blocker::Side => y == frame_y,
        Blocker::Point(number) => {
            let p = point(cloud, number);
            p.y() == y && is_across(p, rectangle)
        }
    }
}

/// The point of this number.
fn point<'a>(cloud: Option<Cloud2<'a>>, number: u32) -> &'a Point2
    requires { number < length (points_in cloud) }
    ensures { result.now ≡ point_at (points_in cloud.entry) number }
{
    match cloud {
        Some(cloud) => cloud.at(number),
        None => unreachable!(),
    }
}
