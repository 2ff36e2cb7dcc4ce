//! Answers of any kind.
ghost use Rattle.std.specs.Prelude.{◌↔◌, IsTrue, IfOk, OnErr};
ghost use Rattle.bounds_model.specs.Asks.{IsValid};
ghost use Rattle.bounds_model.specs.Answers.{Passes, IsBest, IsFirstOfBest};
ghost use Rattle.bounded_coords.specs.Asked.{asked, lent};
ghost use Rattle.answers.specs.Answers.{answer_of};
ghost use Rattle.witness_check.specs.Kinds.{WantsMemory};

use answers::Answer;
use ball_check::{check_circle, check_sphere};
use bounded_coords::{Ask, OutOfMemory, Sets};
use centres_check::{check_centres, check_four};
use distance_check::check_distance;
use empty_check::check_empty;
use fan_checks::{check_parallelogram, check_rectangle, check_strip};
use furthest_check::check_furthest;
use optimality::answer::{passing_answers_are_best, passing_answers_are_first};
use polygon_check::check_kgon;
use ring_check::{check_annulus, check_shell};
use std::alloc::Global;

/// Whether the answer is of the kind that is asked, the sets are those that it is asked of, and the answer meets all
/// conditions of its kind. Where it does, it is best, and a strip, a rectangle or a polygon is the first of all best ones. The only
/// error is that memory is wanting, and only empty rectangles want any.
pub fn check(alloc: Global, ask: &Ask, sets: Sets<'_>, answer: &Answer) -> Result<bool, OutOfMemory>
    requires { IsValid (asked ask.now) }
    ensures passes { IfOk result (λ yes. IsTrue yes ↔ Passes (asked ask.now) (lent sets.entry) (answer_of answer.now)) }
    ensures best { IfOk result (λ yes. IsTrue yes → IsBest (asked ask.now) (lent sets.entry) (answer_of answer.now)) }
    ensures first { IfOk result (λ yes. IsTrue yes → IsFirstOfBest (asked ask.now) (lent sets.entry) (answer_of answer.now)) }
    ensures memory { OnErr result (WantsMemory ask.now) }
{
    match (ask, sets, answer) {
        (Ask::Circle, Sets::Plane(cloud), Answer::Circle(a)) => Ok(check_circle(cloud, a)),
        (Ask::Sphere, Sets::Space(cloud), Answer::Sphere(a)) => Ok(check_sphere(cloud, a)),
        (Ask::Rectangle, Sets::Plane(cloud), Answer::Rectangle(a)) => Ok(check_rectangle(cloud, a)),
        (Ask::Parallelogram, Sets::Plane(cloud), Answer::Parallelogram(a)) => {
            Ok(check_parallelogram(cloud, a))
        }
        (Ask::Strip, Sets::Plane(cloud), Answer::Strip(a)) => Ok(check_strip(cloud, a)),
        (Ask::Annulus, Sets::Plane(cloud), Answer::Annulus(a)) => Ok(check_annulus(cloud, a)),
        (Ask::Empty(frame), Sets::Plane(cloud), Answer::Empty(a)) => {
            check_empty(alloc, Some(cloud), *frame, a)
        }
        (Ask::Empty(frame), Sets::Bare, Answer::Empty(a)) => check_empty(alloc, None, *frame, a),
        (Ask::Kgon(k), Sets::Plane(cloud), Answer::Kgon(a)) => Ok(check_kgon(cloud, *k, a)),
        (Ask::Distance, Sets::Two(p, q), Answer::Distance(a)) => Ok(check_distance(p, q, a)),
        (Ask::Centres(p), Sets::Plane(cloud), Answer::Centres(a)) => {
            Ok(check_centres(cloud, *p, a))
        }
        (Ask::Furthest, Sets::Plane(cloud), Answer::Furthest(a)) => Ok(check_furthest(cloud, a)),
        (Ask::Four, Sets::Plane(cloud), Answer::Four(a)) => Ok(check_four(cloud, a)),
        (Ask::Shell, Sets::Space(cloud), Answer::Shell(a)) => Ok(check_shell(cloud, a)),
        _ => Ok(false),
    }
}
