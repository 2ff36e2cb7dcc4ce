//! The points strictly inside the frame, in order of y.
ghost use Rattle.std.specs.Prelude.{◌≡◌, ◌↔◌, ◌<◌, [], length, IsSome, IfSome, IfOk, OnOk, OnErr};
ghost use Rattle.bounds_model.specs.EmptyRectangle.{IsFrame, IsStrictlyInside};
ghost use Rattle.bounded_coords.specs.Clouds.{points_of};
ghost use Rattle.empty_rectangle.specs.Rectangles.{vertical, level, columns, IsExtent};
ghost use Rattle.empty_rectangle.specs.Points.{points_in, HasPointInside, IsExtentOf, IsObstacleAt, AreObstacles, ListsObstacles};

use crate::rectangles::RestingSide;
use answers::Blocker;
use bounded_coords::{Cloud2, Frame, OutOfMemory, Point2};
use std::alloc::Global;

/// A point strictly inside the frame: how far it is from the frame's left side and from its bottom, in units of the coordinates, and
/// its number.
#[derive(Clone, Copy)]
pub(crate) struct Obstacle {
    pub(crate) x: u32,
    pub(crate) y: u32,
    pub(crate) number: u32,
}

impl Obstacle {
    /// The vertical side through the obstacle.
    pub(crate) fn vertical(self) -> RestingSide
        ensures { result ≡ vertical self }
    {
        RestingSide {
            at: self.x,
            by: Blocker::Point(self.number),
        }
    }

    /// The level side through the obstacle.
    pub(crate) fn level(self) -> RestingSide
        ensures { result ≡ level self }
    {
        RestingSide {
            at: self.y,
            by: Blocker::Point(self.number),
        }
    }
}

/// The width and the height of the frame.
#[derive(Clone, Copy)]
pub(crate) struct Extent {
    pub(crate) width: u32,
    pub(crate) height: u32,
}

impl Extent {
    /// The width and the height of a frame.
    pub(crate) fn inside(frame: Frame) -> Extent
        ensures extent { IsExtent result }
        ensures frame { IsExtentOf frame result }
        ensures frame_in { IsFrame frame }
    {
        Extent {
            width: (frame.r() - frame.l()) as u32,
            height: (frame.t() - frame.b()) as u32,
        }
    }
}

/// The point as an obstacle, or None where it is not strictly inside the frame.
fn placed(frame: Frame, p: &Point2, number: u32) -> Option<Obstacle>
    ensures inside { IsSome result ↔ IsStrictlyInside frame p.now }
    ensures at { IfSome result (λ s. IsObstacleAt frame p.now s) }
    ensures number { IfSome result (λ s. s.number ≡ number) }
{
    let x = p.x();
    let y = p.y();
    if x <= frame.l() || x >= frame.r() || y <= frame.b() || y >= frame.t() {
        return None;
    }
    Some(Obstacle {
        x: (x - frame.l()) as u32,
        y: (y - frame.b()) as u32,
        number,
    })
}

/// Adds the points of a cloud that are strictly inside the frame. Memory is wanted only where there is one.
fn add_points(
    obstacles: &mut Vec<Obstacle>,
    cloud: Cloud2<'_>,
    frame: Frame,
) -> Result<(), OutOfMemory>
    requires { obstacles.old.items ≡ [] }
    ensures added { OnOk result (AreObstacles frame (points_of cloud.entry) (points_of cloud.entry) obstacles.new.items) }
    ensures wants { OnErr result (HasPointInside frame (points_of cloud.entry)) }
{
    'points: for i in 0..cloud.len() {
        if let Some(s) = placed(frame, cloud.at(i), i) {
            match obstacles.push(s) {
                Ok(()) => {}
                Err(_) => return Err(OutOfMemory),
            }
        }
    }
    Ok(())
}

/// The points that are strictly inside the frame, from the lowest up. Memory is wanted only where there is one.
pub(crate) fn obstacles_in(
    alloc: Global,
    cloud: Option<Cloud2<'_>>,
    frame: Frame,
) -> Result<Vec<Obstacle>, OutOfMemory>
    ensures lists { IfOk result (λ obstacles. ListsObstacles frame (points_in cloud.entry) obstacles.items) }
    ensures wants { OnErr result (HasPointInside frame (points_in cloud.entry)) }
{
    let mut obstacles = Vec::new(alloc);
    if let Some(cloud) = cloud {
        add_points(&mut obstacles, cloud, frame)?;
    }
    obstacles.sort_unstable_by_key(|s| s.y);
    Ok(obstacles)
}

/// The x of the obstacles, in their order. Memory is wanted only where there is one.
pub(crate) fn columns_of(alloc: Global, obstacles: &[Obstacle]) -> Result<Vec<u32>, OutOfMemory>
    ensures columns { IfOk result (λ xs. xs.items ≡ columns obstacles.now) }
    ensures wants { OnErr result (0 < length obstacles.now) }
{
    let mut xs = Vec::new(alloc);
    'columns: for i in 0..obstacles.len() {
        match xs.push(obstacles[i].x) {
            Ok(()) => {}
            Err(_) => return Err(OutOfMemory),
        }
    }
    Ok(xs)
}
