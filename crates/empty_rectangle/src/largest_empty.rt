//! The largest empty rectangle, and whether none is larger than an area.
ghost use Rattle.std.specs.Prelude.{◌≡◌, ◌↔◌, IsTrue, IfOk, OnErr, pos, ◌+ℤ◌};
ghost use Rattle.bounds_model.specs.EmptyAnswer.{PassesEmpty, NoneLarger};
ghost use Rattle.answers.specs.Answers.{empty_of};
ghost use Rattle.empty_rectangle.specs.Points.{points_in, HasPointInside};
ghost use Rattle.empty_rectangle.specs.Answers.{answer_of};

use crate::obstacles::{Extent, columns_of, obstacles_in};
use crate::rectangles::Rectangle;
use crate::search::search;
use answers::EmptyAnswer;
use bounded_coords::{Cloud2, Frame, OutOfMemory};
use exact_fractions::Frac;
use std::alloc::Global;

/// The rectangle of greatest area in the frame with no point strictly inside it, its area, and what each of its sides rests on (CGAL
/// manual, Inscribed Areas, `Largest_empty_iso_rectangle_2`; Orlowski, A new algorithm for the largest empty rectangle problem,
/// 1990). Points on the frame's border or outside it block nothing. The only error is that memory is wanting, and it comes only where a
/// point is strictly inside the frame.
pub fn largest(
    alloc: Global,
    cloud: Option<Cloud2<'_>>,
    frame: Frame,
) -> Result<EmptyAnswer, OutOfMemory>
    ensures passes { IfOk result (λ a. PassesEmpty frame (points_in cloud.entry) (empty_of a)) }
    ensures memory { OnErr result (HasPointInside frame (points_in cloud.entry)) }
{
    let obstacles = obstacles_in(alloc, cloud, frame)?;
    let xs = columns_of(alloc, &obstacles)?;
    let none = Rectangle::of_area(0);
    let best = search(&obstacles, &xs, Extent::inside(frame), none, u64::MAX);
    Ok(answer(frame, best))
}

/// Whether no rectangle in the frame with no point strictly inside it has more than this area, in squared units. It ends soon after
/// the first larger one is found. The only error is that memory is wanting, and it comes only where a point is strictly inside the frame.
///
/// The clause asks what a checker asks: of rectangles between two heights, from one x in their band to the next.
pub fn is_none_larger(
    alloc: Global,
    cloud: Option<Cloud2<'_>>,
    frame: Frame,
    area: u64,
) -> Result<bool, OutOfMemory>
    ensures decides { IfOk result (λ none. IsTrue none ↔ NoneLarger frame (points_in cloud.entry) (record { n = pos area; d = pos 1 })) }
    ensures memory { OnErr result (HasPointInside frame (points_in cloud.entry)) }
{
    let obstacles = obstacles_in(alloc, cloud, frame)?;
    let xs = columns_of(alloc, &obstacles)?;
    let none = Rectangle::of_area(area);
    let best = search(&obstacles, &xs, Extent::inside(frame), none, area);
    Ok(best.area == area)
}

/// The answer with this rectangle.
fn answer(frame: Frame, rectangle: Rectangle) -> EmptyAnswer
    ensures { empty_of result ≡ answer_of frame rectangle }
{
    EmptyAnswer {
        size: Frac::new(u128::from(rectangle.area), 1),
        l: coordinate(frame.l(), rectangle.left.at),
        b: coordinate(frame.b(), rectangle.bottom.at),
        r: coordinate(frame.l(), rectangle.right.at),
        t: coordinate(frame.b(), rectangle.top.at),
        left: rectangle.left.by,
        bottom: rectangle.bottom.by,
        right: rectangle.right.by,
        top: rectangle.top.by,
    }
}

/// The coordinate that is this far from the frame's left side or bottom.
fn coordinate(start: i32, distance: u32) -> i128
    ensures { result ≡ (start +ℤ pos distance) }
{
    i128::from(i64::from(start) + i64::from(distance))
}
