//! The answer to what is asked.
ghost use Rattle.std.specs.Prelude.{◌≡◌, ℕ, ◌+◌, ◌*◌, ◌≤◌, IfOk, IfErr};
ghost use Rattle.bounds_model.specs.Asks.{IsValid, Suits, ask_centres, ask_four};
ghost use Rattle.bounds_model.specs.Answers.{Passes, IsBest};
ghost use Rattle.bounded_coords.specs.Asked.{asked, lent};
ghost use Rattle.answers.specs.Answers.{answer_of};
ghost use Rattle.solving.specs.Solving.{point_count, steps_of_four, AreTooMany, IsUnsolved};

use crate::SolveFault;
use answers::Answer;
use bounded_coords::{Ask, Sets, Steps};
use empty_rectangle::largest;
use extremal_kgon::kgon;
use four_centres::four;
use furthest::furthest;
use hull_calipers::corners;
use min_annulus::annulus;
use min_ball::{circle, sphere};
use min_rectangle::rectangle;
use min_shell::shell;
use optimality::answer::passing_answers_are_best;
use p_centres::centres;
use parallelogram_strip::{parallelogram, strip};
use polytope_distance::distance;
use std::alloc::Global;
use std::sync::ledger::Ledger;

/// Answers what is asked of these points: with one object of the kind that fits them, its exact size, and a witness that
/// passes the checker, so that no object of the kind has a better size. `TooManyCorners` comes exactly where a polygon is asked of
/// points whose hull has more than 128 corners, and `TooManyPoints` exactly where four centres are asked of more than 1000 points,
/// unless memory is wanting; circle, sphere, annulus, distance, one to three centres and shell take none.
pub fn solve<L: Ledger>(
    alloc: Global,
    ask: &Ask,
    sets: Sets<'_>,
    steps: &mut Steps<L>,
) -> Result<Answer, SolveFault>
    requires valid { IsValid (asked ask.now) }
    requires suits { Suits (asked ask.now) (lent sets) }
    ensures passes { IfOk result (λ answer. Passes (asked ask.now) (lent sets.entry) (answer_of answer)) }
    ensures best { IfOk result (λ answer. IsBest (asked ask.now) (lent sets.entry) (answer_of answer)) }
    ensures taken { IfOk result (λ answer. ¬ AreTooMany (asked ask.now) (lent sets.entry)) }
    ensures cause { IfErr result (IsUnsolved ask.now (lent sets.entry)) }
    ensures cost { (p : ℕ) → asked ask.now ≡ ask_centres p → steps.new ≤ steps.old + 1000 * point_count (lent sets.entry) }
    ensures cost_of_four { asked ask.now ≡ ask_four → steps.new ≤ steps.old + steps_of_four (point_count (lent sets.entry)) }
{
    passing_answers_are_best();
    match (ask, sets) {
        (Ask::Circle, Sets::Plane(cloud)) => Ok(Answer::Circle(circle(cloud).answer())),
        (Ask::Sphere, Sets::Space(cloud)) => Ok(Answer::Sphere(sphere(cloud).answer())),
        (Ask::Rectangle, Sets::Plane(cloud)) => {
            Ok(Answer::Rectangle(rectangle(alloc, cloud, steps)?))
        }
        (Ask::Parallelogram, Sets::Plane(cloud)) => {
            Ok(Answer::Parallelogram(parallelogram(alloc, cloud, steps)?))
        }
        (Ask::Strip, Sets::Plane(cloud)) => Ok(Answer::Strip(strip(alloc, cloud, steps)?)),
        (Ask::Annulus, Sets::Plane(cloud)) => Ok(Answer::Annulus(annulus(cloud))),
        (Ask::Empty(frame), Sets::Plane(cloud)) => {
            Ok(Answer::Empty(largest(alloc, Some(cloud), *frame)?))
        }
        (Ask::Empty(frame), Sets::Bare) => Ok(Answer::Empty(largest(alloc, None, *frame)?)),
        (Ask::Kgon(k), Sets::Plane(cloud)) => Ok(Answer::Kgon(kgon(alloc, cloud, *k)?)),
        (Ask::Distance, Sets::Two(p, q)) => Ok(Answer::Distance(distance(p, q))),
        (Ask::Centres(p), Sets::Plane(cloud)) => {
            Ok(Answer::Centres(centres(cloud.counted(), *p, steps)))
        }
        (Ask::Furthest, Sets::Plane(cloud)) => {
            Ok(Answer::Furthest(furthest(alloc, &corners(alloc, cloud)?, steps)?))
        }
        (Ask::Four, Sets::Plane(cloud)) => Ok(Answer::Four(four(alloc, cloud.counted(), steps)?)),
        (Ask::Shell, Sets::Space(cloud)) => Ok(Answer::Shell(shell(cloud))),
        _ => unreachable!(),
    }
}
