//! The greatest and the least of some values.
ghost use Rattle.std.specs.Prelude.{◌≡◌, ◌^◌, ◌+◌, ℕ, ℤ};
ghost use Rattle.integers.specs.Size.{Size};
ghost use Rattle.pair_weights.specs.Extremes.{AreExtremes};

/// The greatest and the least of some values, such as those of a linear form at points, and numbers that have them.
#[derive(Clone, Copy)]
pub struct Extremes {
    /// The number of a greatest value: where the values grow with the distance from a centre, that of a point farthest from it.
    pub far: u32,
    /// The greatest value.
    pub high: i128,
    /// The number of a least value.
    pub near: u32,
    /// The least value.
    pub low: i128,
}

impl Extremes {
    /// Of one value, which has the number 0.
    pub fn first(value: i128) -> Extremes
        requires { Size (2 ^ 80) value }
        ensures { (f : ℕ → ℤ) → value ≡ f 0 → AreExtremes f 1 result }
    {
        Extremes {
            far: 0,
            high: value,
            near: 0,
            low: value,
        }
    }

    /// With one value more, which has the next number.
    pub fn with(self, number: u32, value: i128) -> Extremes
        requires { Size (2 ^ 80) value }
        ensures { (f : ℕ → ℤ) → AreExtremes f number self → value ≡ f number → AreExtremes f (number + 1) result }
    {
        let mut extremes = self;
        if value > extremes.high {
            extremes.far = number;
            extremes.high = value;
        }
        if value < extremes.low {
            extremes.near = number;
            extremes.low = value;
        }
        extremes
    }
}
