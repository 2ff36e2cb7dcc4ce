//! Answers that no text spells, and answers of another kind than is asked.
ghost use Rattle.bounds_model.specs.Asks.{IsValid};
ghost use Rattle.bounded_coords.specs.Asked.{asked};

use answers::{
    Answer, BallAnswer2, BallAnswer3, Blocker, Dir3, DistanceAnswer, EmptyAnswer, KgonAnswer,
    Numbers, Potentials, Weighted, WeightedPair,
};
use arrayvec::ArrayVec;
use bounded_coords::{Ask, Cloud2, Cloud3, Frame, OutOfMemory, Point2, Point3, Sets};
use empty_rectangle::is_none_larger;
use exact_fractions::{Frac, Homog2, Homog3};
use std::alloc::Global;
use std::process::Abort;
use std::test::Fail;
use witness_check::{check, check_circle, check_distance, check_kgon, check_sphere};

fn flat(rt: &impl Abort, x: i64, y: i64) -> Point2 {
    Point2::new(x, y).expect(rt, "in bounds")
}

fn solid(rt: &impl Abort, x: i64, y: i64, z: i64) -> Point3 {
    Point3::new(x, y, z).expect(rt, "in bounds")
}

/// The circle of the origin alone, with this weight.
fn circle(weight: u128) -> BallAnswer2 {
    let mut supports = ArrayVec::new();
    supports.push(Weighted { point: 0, weight });
    BallAnswer2 {
        size: Frac::new(0, 1),
        center: Homog2::new(0, 0, 1),
        supports,
    }
}

/// The sphere of the origin alone, with this weight.
fn sphere(weight: u128) -> BallAnswer3 {
    let mut supports = ArrayVec::new();
    supports.push(Weighted { point: 0, weight });
    BallAnswer3 {
        size: Frac::new(0, 1),
        center: Homog3::new(0, 0, 0, 1),
        supports,
    }
}

/// From the origin to the triangle (3, 0, 0), (0, 3, 0), (0, 0, 3), in this direction, with one weight for each corner.
fn to_the_triangle(direction: i128, weight: u128) -> DistanceAnswer {
    let mut pairs = ArrayVec::new();
    for second in 0..3 {
        let _ = pairs.try_push(WeightedPair {
            first: 0,
            second,
            weight,
        });
    }
    DistanceAnswer {
        size: Frac::new(3, 1),
        from: Homog3::new(0, 0, 0, 1),
        to: Homog3::new(1, 1, 1, 1),
        direction: Dir3 {
            x: direction,
            y: direction,
            z: direction,
        },
        pairs,
    }
}

/// The largest triangle on the square with sides of length 2, with these potentials.
fn triangle(alloc: Global, bounds: &[u128]) -> Result<KgonAnswer, OutOfMemory> {
    let mut corners = Numbers::new(alloc);
    for corner in 0..4 {
        if corners.len() < 1_000_000 {
            corners.push(corner)?;
        }
    }
    let mut potentials = Potentials::new(alloc);
    for bound in bounds {
        if potentials.len() < 1_000_000 {
            potentials.push(*bound)?;
        }
    }
    let mut chosen = ArrayVec::new();
    for position in 0..3 {
        let _ = chosen.try_push(position);
    }
    Ok(KgonAnswer {
        size: Frac::new(2, 1),
        corners,
        chosen,
        layers: 1,
        potentials,
    })
}

#[test]
fn weights_and_directions_past_all_texts(rt: HostRuntime) {
    let plane = [flat(&rt, 0, 0)];
    let space = [solid(&rt, 0, 0, 0)];
    let flat = Cloud2::from_slice(&plane).expect(&rt, "a point");
    let solid_one = Cloud3::from_slice(&space).expect(&rt, "a point");
    for (weight, yes) in [(1, true), (0, false), (u128::MAX, false)] {
        assert_eq!(rt;
            check_circle(flat, &circle(weight)),
            yes,
            "a circle of {weight}"
        );
        assert_eq!(rt;
            check_sphere(solid_one, &sphere(weight)),
            yes,
            "a sphere of {weight}"
        );
    }
    let corners = [
        solid(&rt, 3, 0, 0),
        solid(&rt, 0, 3, 0),
        solid(&rt, 0, 0, 3),
    ];
    let triangle = Cloud3::from_slice(&corners).expect(&rt, "three points");
    for (direction, weight, yes) in [
        (-1, 1, true),
        (-1, (1 << 66) / 3, true),
        (-1, (1 << 66) / 3 + 1, false),
        (-1, u128::MAX, false),
        (i128::MIN, 1, false),
    ] {
        let a = to_the_triangle(direction, weight);
        assert_eq!(rt;
            check_distance(solid_one, triangle, &a),
            yes,
            "{direction}, {weight}"
        );
    }
    let mut none = to_the_triangle(-1, 1);
    none.pairs = ArrayVec::new();
    assert!(rt; !check_distance(solid_one, triangle, &none), "no pairs");
}

#[test]
fn potentials_past_the_rows(rt: HostRuntime) -> Result<(), Fail> {
    let square = [
        flat(&rt, 0, 0),
        flat(&rt, 2, 0),
        flat(&rt, 2, 2),
        flat(&rt, 0, 2),
    ];
    let cloud = Cloud2::from_slice(&square).expect(&rt, "four points");
    let rows: [(&[u128], bool); 3] = [
        (&[0, 4, 4, 0, 4, 0], true),
        (&[0, 4, 4, 0, 4, 0, 0], false),
        (&[0, 4, 4, 0, 4], false),
    ];
    for (bounds, yes) in rows {
        let a = triangle(rt.alloc(), bounds)?;
        assert_eq!(rt; check_kgon(cloud, 3, &a), yes, "{bounds:?}");
    }
    let frame = Frame::new(0, 0, 4, 4).expect(&rt, "a frame");
    for (area, yes) in [
        (0, false),
        (15, false),
        (16, true),
        (17, true),
        (u64::MAX, true),
    ] {
        let none = is_none_larger(rt.alloc(), None, frame, area)?;
        assert_eq!(rt; none, yes, "an area of {area}");
    }
    Ok(())
}

/// Whether the circle of the origin alone passes. What follows of a yes is no test's subject, so no clause says it.
fn is_circle_taken(alloc: Global, ask: Ask, sets: Sets<'_>) -> Result<bool, OutOfMemory>
    requires { IsValid (asked ask) }
{
    check(alloc, &ask, sets, &Answer::Circle(circle(1)))
}

/// The rectangle of the whole frame from (0, 0) to (4, 4).
fn whole_frame() -> EmptyAnswer {
    EmptyAnswer {
        size: Frac::new(16, 1),
        l: 0,
        b: 0,
        r: 4,
        t: 4,
        left: Blocker::Side,
        bottom: Blocker::Side,
        right: Blocker::Side,
        top: Blocker::Side,
    }
}

/// Whether the rectangle of the whole frame passes.
fn is_frame_taken(alloc: Global, ask: Ask, sets: Sets<'_>) -> Result<bool, OutOfMemory>
    requires { IsValid (asked ask) }
{
    check(alloc, &ask, sets, &Answer::Empty(whole_frame()))
}

#[test]
fn a_circle_answers_its_kind_and_sets_alone(rt: HostRuntime) -> Result<(), Fail> {
    let alloc = rt.alloc();
    let plane = [flat(&rt, 0, 0)];
    let space = [solid(&rt, 0, 0, 0)];
    let one = Cloud2::from_slice(&plane).expect(&rt, "a point");
    let other = Cloud3::from_slice(&space).expect(&rt, "a point");
    assert!(rt; is_circle_taken(alloc, Ask::Circle, Sets::Plane(one))?);
    assert!(rt; !is_circle_taken(alloc, Ask::Circle, Sets::Space(other))?);
    assert!(rt; !is_circle_taken(alloc, Ask::Circle, Sets::Bare)?);
    assert!(rt; !is_circle_taken(alloc, Ask::Sphere, Sets::Space(other))?);
    Ok(())
}

#[test]
fn an_empty_rectangle_answers_its_kind_and_sets_alone(rt: HostRuntime) -> Result<(), Fail> {
    let alloc = rt.alloc();
    let plane = [flat(&rt, 0, 0)];
    let space = [solid(&rt, 0, 0, 0)];
    let one = Cloud2::from_slice(&plane).expect(&rt, "a point");
    let other = Cloud3::from_slice(&space).expect(&rt, "a point");
    let frame = Frame::new(0, 0, 4, 4).expect(&rt, "a frame");
    assert!(rt; !is_frame_taken(alloc, Ask::Circle, Sets::Plane(one))?);
    assert!(rt; is_frame_taken(alloc, Ask::Empty(frame), Sets::Plane(one))?);
    assert!(rt; is_frame_taken(alloc, Ask::Empty(frame), Sets::Bare)?);
    assert!(rt; !is_frame_taken(alloc, Ask::Empty(frame), Sets::Two(other, other))?);
    Ok(())
}
