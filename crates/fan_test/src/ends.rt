//! The two ends in a direction.
ghost use Rattle.std.specs.Prelude.{◌≡◌};
ghost use Rattle.bounds_model.specs.Fans.{IsShort};
ghost use Rattle.fan_test.specs.Directions.{direction_of};
ghost use Rattle.fan_test.specs.Ends.{aimed, chosen};

use crate::direction::Direction;

/// An end in a direction.
#[derive(Clone, Copy, Debug, PartialEq, Eq)]
pub enum End {
    /// The points that are furthest out.
    High,
    /// The points that are furthest back.
    Low,
}

impl End {
    /// The direction in which this end is furthest out.
    pub(crate) fn aim(self, d: Direction) -> Direction
        requires { IsShort (direction_of d) }
        ensures value { direction_of result ≡ aimed self (direction_of d) }
        ensures short { IsShort (direction_of result) }
    {
        match self {
            End::High => d,
            End::Low => Direction { x: -d.x, y: -d.y },
        }
    }

    /// One of two numbers.
    pub(crate) fn choose(self, high: u32, low: u32) -> u32
        ensures { result ≡ chosen self high low }
    {
        match self {
            End::High => high,
            End::Low => low,
        }
    }
}
