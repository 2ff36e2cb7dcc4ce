//! Vectors in machine numbers.

/// A difference of two points. In the plane z is 0.
#[derive(Clone, Copy, Debug, PartialEq, Eq)]
pub struct Vector {
    pub x: i64,
    pub y: i64,
    pub z: i64,
}

/// A weighted sum of vectors.
#[derive(Clone, Copy, Debug, PartialEq, Eq)]
pub struct Sum {
    pub x: i128,
    pub y: i128,
    pub z: i128,
}
