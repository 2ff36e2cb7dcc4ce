//! Rectangles between obstacles, each side of which rests on an obstacle or on the frame: Orlowski's restricted rectangles.
ghost use Rattle.std.specs.Prelude.{◌≡◌, ◌<◌, ◌≤◌, ◌↔◌, IsTrue};
ghost use Rattle.empty_rectangle.specs.Rectangles.{side, IsStrictlyBetween, Enters, rectangle_in, Larger, Narrows};

use crate::obstacles::Obstacle;
use answers::Blocker;

/// A side of a rectangle: how far it is from the frame's left side or bottom, and what it rests on.
#[derive(Clone, Copy)]
pub(crate) struct RestingSide {
    pub(crate) at: u32,
    pub(crate) by: Blocker,
}

impl RestingSide {
    /// A side of the frame.
    pub(crate) fn side(at: u32) -> RestingSide
        ensures { result ≡ side at }
    {
        RestingSide {
            at,
            by: Blocker::Side,
        }
    }
}

/// A rectangle and its area.
#[derive(Clone, Copy)]
pub(crate) struct Rectangle {
    pub(crate) area: u64,
    pub(crate) left: RestingSide,
    pub(crate) bottom: RestingSide,
    pub(crate) right: RestingSide,
    pub(crate) top: RestingSide,
}

impl Rectangle {
    /// No rectangle, but an area that a rectangle has to exceed.
    pub(crate) fn of_area(area: u64) -> Rectangle
        ensures { result.area ≡ area }
    {
        let side = RestingSide::side(0);
        Rectangle {
            area,
            left: side,
            bottom: side,
            right: side,
            top: side,
        }
    }

    /// The other rectangle where it is larger than this one and higher than `least`, and else this one.
    pub(crate) fn or(self, other: Rectangle, least: u32) -> Rectangle
        ensures { Larger self other least result }
    {
        if other.area <= self.area {
            return self;
        }
        if other.top.at <= least {
            return self;
        }
        other
    }
}

/// The two vertical sides between which rectangles grow.
#[derive(Clone, Copy)]
pub(crate) struct Window {
    pub(crate) left: RestingSide,
    pub(crate) right: RestingSide,
}

impl Window {
    /// Whether an x is strictly between the sides. One comparison tells it, since a processor cannot foretell on which side of a window
    /// an obstacle stands.
    pub(crate) fn is_around(self, x: u32) -> bool
        requires { self.left.at < self.right.at }
        ensures { IsTrue result ↔ IsStrictlyBetween self.left.at self.right.at x }
    {
        let width = self.right.at - self.left.at;
        x.wrapping_sub(self.left.at + 1) < width - 1
    }

    /// Whether the obstacle is strictly between the sides, and above `bottom`.
    pub(crate) fn is_entered(self, bottom: u32, obstacle: Obstacle) -> bool
        requires { self.left.at < self.right.at }
        ensures { IsTrue result ↔ Enters self.left.at bottom self.right.at obstacle }
    {
        self.is_around(obstacle.x) && bottom < obstacle.y
    }

    /// The rectangle between the sides from `bottom` to `top`.
    pub(crate) fn rectangle(self, bottom: RestingSide, top: RestingSide) -> Rectangle
        requires width { self.left.at ≤ self.right.at }
        requires height { bottom.at ≤ top.at }
        ensures { result ≡ rectangle_in self bottom top }
    {
        let width = self.right.at - self.left.at;
        let height = top.at - bottom.at;
        Rectangle {
            area: u64::from(width) * u64::from(height),
            left: self.left,
            bottom,
            right: self.right,
            top,
        }
    }

    /// The part of the window that is beside the obstacle and meets the column.
    pub(crate) fn beside(self, obstacle: Obstacle, column: u32) -> Window
        requires { obstacle.x ≤ 400000 }
        ensures { Narrows self obstacle column result }
    {
        let Window { left, right } = self;
        if 2 * obstacle.x < column {
            return Window {
                left: obstacle.vertical(),
                right,
            };
        }
        Window {
            left,
            right: obstacle.vertical(),
        }
    }
}
