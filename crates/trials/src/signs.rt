//! On which side of a line, a plane and a circle a point lies.

use bounded_coords::{Point2, Point3};
use kernel_laws::{Plane, Sign, Sum, Vector, orient2, orient3, side};
use std::process::Abort;

fn flat(rt: &impl Abort, x: i64, y: i64) -> Point2 {
    Point2::new(x, y).expect(rt, "in bounds")
}

fn solid(rt: &impl Abort, x: i64, y: i64, z: i64) -> Point3 {
    Point3::new(x, y, z).expect(rt, "in bounds")
}

/// Where a point lies to the circle over (0, 0) and (2, 0), measured from (0, 0), with weights 1 and 1.
fn side_of_small_circle(x: i64, y: i64) -> Sign {
    if x < -3 || x > 3 || y < -3 || y > 3 {
        return Sign::Minus;
    }
    side(&Plane, Sum { x: 2, y: 0, z: 0 }, 2, Vector { x, y, z: 0 })
}

#[test]
fn sides(rt: HostRuntime) {
    let (a, b, c, d) = (
        flat(&rt, -200000, -200000),
        flat(&rt, 200000, -200000),
        flat(&rt, 200000, 200000),
        flat(&rt, 0, 0),
    );
    assert!(rt; orient2(&a, &b, &c) == Sign::Plus);
    assert!(rt; orient2(&b, &a, &c) == Sign::Minus);
    assert!(rt; orient2(&a, &d, &c) == Sign::Zero);
    let (p, q, r, s) = (
        solid(&rt, 0, 0, 0),
        solid(&rt, 8000, 0, 0),
        solid(&rt, 0, 8000, 0),
        solid(&rt, 0, 0, 1),
    );
    assert!(rt; orient3(&p, &q, &r, &s) == Sign::Plus);
    assert!(rt; orient3(&p, &r, &q, &s) == Sign::Minus);
    assert!(rt; orient3(&p, &q, &r, &q) == Sign::Zero);
    for (x, y, want) in [
        (1, 0, Sign::Plus),
        (0, 0, Sign::Zero),
        (2, 0, Sign::Zero),
        (1, -1, Sign::Zero),
        (1, 2, Sign::Minus),
        (3, 0, Sign::Minus),
    ] {
        assert!(rt; side_of_small_circle(x, y) == want, "at ({x}, {y})");
    }
}
