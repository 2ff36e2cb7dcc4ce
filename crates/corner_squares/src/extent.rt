//! The least and the greatest of the numbers seen so far.
ghost use Rattle.std.specs.Prelude.{◌≡◌, ◌≤◌, ◌+ℤ◌, ◌-ℤ◌, ◌≤ℤ◌, pos, if◌then◌else◌};
ghost use Rattle.bounds_model.specs.Numbers.{IsWithin};
ghost use Rattle.bounds_model.specs.Plane.{plane_limit};
ghost use Rattle.corner_squares.specs.Extents.{Sees};

/// The least and the greatest number, and the indices where they stood first.
#[derive(Clone, Copy, Debug, PartialEq, Eq)]
pub struct Extent {
    /// The least number.
    pub low: i32,
    /// The greatest number.
    pub high: i32,
    /// The index of the least number.
    pub low_at: u32,
    /// The index of the greatest number.
    pub high_at: u32,
}

impl Extent {
    /// Of one number.
    pub fn new(value: i32, at: u32) -> Extent
        ensures { result ≡ record { low = value; high = value; low_at = at; high_at = at } }
    {
        Extent {
            low: value,
            high: value,
            low_at: at,
            high_at: at,
        }
    }

    /// With one number more.
    pub fn with(self, value: i32, at: u32) -> Extent
        ensures { Sees self value at result }
    {
        let mut extent = self;
        if value < extent.low {
            extent.low = value;
            extent.low_at = at;
        }
        if value > extent.high {
            extent.high = value;
            extent.high_at = at;
        }
        extent
    }

    /// How far the greatest is above the least.
    pub fn length(self) -> u32
        requires order { self.low ≤ℤ self.high }
        requires low { IsWithin plane_limit self.low }
        requires high { IsWithin plane_limit self.high }
        ensures { self.high ≡ (self.low +ℤ pos result) }
    {
        (self.high - self.low) as u32
    }

    /// The lower end of so long a piece at the low end, or at the high one.
    pub(crate) fn piece(self, low: bool, length: u32) -> i32
        requires high { IsWithin plane_limit self.high }
        requires length { length ≤ 2000000 }
        ensures { result ≡ if low then self.low else (self.high -ℤ pos length) }
    {
        if low {
            self.low
        } else {
            self.high - length as i32
        }
    }
}
