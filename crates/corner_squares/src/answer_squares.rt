//! Squares of one side, as an answer has them.
ghost use Rattle.std.specs.Prelude.{◌≡◌, ◌<◌, ◌≤◌, ◌+ℤ◌, ◌*ℤ◌, pos, length, All};
ghost use Rattle.arrayvec.specs.ArrayVec.{array_vec_len};
ghost use Rattle.bounds_model.specs.Numbers.{IsWithin};
ghost use Rattle.corner_squares.specs.Covers.{IsPlaced, IsFilledUp};
ghost use Rattle.corner_squares.specs.AnswerSquares.{half_of, fraction_of, centre_of, centres_of_squares};

use crate::square::Square;
use arrayvec::ArrayVec;
use exact_fractions::{Frac, Homog2};

/// As many squares as are asked for: where there are fewer, the first one is repeated.
pub fn filled_up<const N: usize>(squares: ArrayVec<Square, N>, count: u8) -> ArrayVec<Square, N>
    requires some { 0 < array_vec_len squares }
    requires few { array_vec_len squares ≤ count }
    requires room { count ≤ N }
    ensures { IsFilledUp count squares.entry.items result.items }
{
    let first = squares.as_slice()[0];
    let mut filled = squares;
    let some = filled.len();
    for _i in some..usize::from(count) {
        filled.push(first);
    }
    filled
}

/// A radius `n`/`d` in lowest terms.
#[derive(Clone, Copy)]
struct Radius {
    n: u32,
    d: u32,
}

/// The radius of a square with this side.
fn half(side: u32) -> Radius
    ensures value { fraction_of result ≡ half_of side }
    ensures n { result.n ≤ side }
    ensures some { 1 ≤ result.d }
    ensures d { result.d ≤ 2 }
{
    if side % 2 == 0 {
        Radius { n: side / 2, d: 1 }
    } else {
        Radius { n: side, d: 2 }
    }
}

/// A coordinate of a square's centre, times the radius's denominator, from the least coordinate of the square.
fn middle(low: i32, radius: Radius) -> i128
    requires low { IsWithin 1000000 low }
    requires n { radius.n ≤ 400000 }
    requires d { radius.d ≤ 2 }
    ensures { result ≡ ((low *ℤ pos radius.d) +ℤ pos radius.n) }
{
    i128::from(i64::from(low) * i64::from(radius.d) + i64::from(radius.n))
}

/// The centre of a square.
fn centre(square: &Square, radius: Radius) -> Homog2
    requires placed { IsPlaced square.now.side square.now }
    requires limit { square.now.side ≤ 400000 }
    requires half { fraction_of radius ≡ half_of square.now.side }
    requires n { radius.n ≤ 400000 }
    requires d { radius.d ≤ 2 }
    ensures { result ≡ centre_of square.now (half_of square.now.side) }
{
    let x = middle(square.left, radius);
    let y = middle(square.bottom, radius);
    Homog2::new(x, y, i128::from(radius.d))
}

/// The radius of squares with this side.
pub fn square_radius(side: u32) -> Frac
    ensures { result ≡ half_of side }
{
    let radius = half(side);
    Frac::new(u128::from(radius.n), u128::from(radius.d))
}

/// The centres of squares that have this side.
pub fn square_centres<const N: usize>(side: u32, squares: &[Square]) -> ArrayVec<Homog2, N>
    requires few { length squares.now ≤ N }
    requires placed { All (IsPlaced side) squares.now }
    requires limit { side ≤ 400000 }
    ensures { result.items ≡ centres_of_squares side squares.now }
{
    let radius = half(side);
    let mut centres = ArrayVec::new();
    for square in squares {
        centres.push(centre(square, radius));
    }
    centres
}
