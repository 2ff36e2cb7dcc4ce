//! Divisors, fractions and places. Their values were computed outside.
ghost use Rattle.std.specs.Prelude.{◌<◌};

use exact_fractions::{Frac, Homog2, Homog3, gcd};
use std::cmp::Ordering;

const LIMIT: u128 = 1 << 126;

/// Two numbers and their greatest common divisor.
const DIVISORS: [(u128, u128, u128); 10] = [
    (0, 0, 0),
    (0, 7, 7),
    (7, 0, 7),
    (1, LIMIT, 1),
    (LIMIT, LIMIT, LIMIT),
    (LIMIT, 3 << 60, 1 << 60),
    (12, 18, 6),
    (
        1_000_000_007 * 998_244_353,
        1_000_000_007 * 2_147_483_647,
        1_000_000_007,
    ),
    // two neighbours of Fibonacci's numbers, and two that have 144 in common
    (43566776258854844738105, 70492524767089125814114, 1),
    (
        144 * 70492524767089125814114,
        144 * 43566776258854844738105,
        144,
    ),
];

/// The order of n/d and m/e.
fn order(n: u32, d: u32, m: u32, e: u32) -> Ordering
    requires first { 0 < d }
    requires second { 0 < e }
{
    let first = Frac::new(n as u128, d as u128);
    first.cmp_small(&Frac::new(m as u128, e as u128))
}

#[test]
fn divisors_fractions_and_places(rt: HostRuntime) {
    for (a, b, want) in DIVISORS {
        assert_eq!(rt; gcd(a, b), want, "of {a} and {b}");
    }
    for (n, d, num, den) in [
        (50, 8, 25, 4),
        (0, 5, 0, 1),
        (LIMIT, LIMIT, 1, 1),
        (LIMIT, 6, 1 << 125, 3),
        (3, LIMIT, 3, LIMIT),
    ] {
        let f = Frac::new(n, d);
        assert_eq!(rt; (f.num(), f.den()), (num, den), "{n}/{d}");
    }
    assert!(rt; order(1, 2, 2, 3) == Ordering::Less);
    assert!(rt; order(1, 2, 3, 6) == Ordering::Equal);
    assert!(rt; order(1, 2, 0, 9) == Ordering::Greater);
    assert!(rt; order(4294967294, 4294967295, 4294967293, 4294967294) == Ordering::Greater);
    let limit = LIMIT as i128;
    for (x, y, w, want) in [
        (6, -4, 2, (3, -2, 1)),
        (0, 0, 9, (0, 0, 1)),
        (-6, 9, 4, (-6, 9, 4)),
        (-limit, limit, limit, (-1, 1, 1)),
    ] {
        let p = Homog2::new(x, y, w);
        assert!(rt; (p.x(), p.y(), p.w()) == want, "({x}, {y})/{w}");
    }
    let p = Homog3::new(10, -20, 30, 40);
    assert!(rt; p.x() == 1 && p.y() == -2 && p.z() == 3 && p.w() == 4);
}
