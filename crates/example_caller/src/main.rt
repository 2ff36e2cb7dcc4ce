//! A program that calls the library: it finds the smallest circle around points of its own by its engine, and the thinnest strip by
//! the call that answers every question, prints the answer's text or its size, reads the text as if somebody had sent it, and says
//! whether it is right.
#![tactic(auto)]

ghost use Rattle.std.specs.Prelude.{◌≡◌, ◌<◌, ◌^◌, ◌≤◌, length, IfOk, IsTrue};
ghost use Rattle.bounds_model.specs.Asks.{IsValid, ask_circle, plane};
ghost use Rattle.bounded_coords.specs.Asked.{asked, lent};
ghost use Rattle.bounded_coords.specs.Clouds.{points_of};
ghost use Rattle.example_caller.specs.Texts.{SpellsBest};

use answers::Answer;
use anyhow::{Result, bail};
use bounded_coords::{Ask, Cloud2, OutOfMemory, Point2, Points2, Sets, Steps, fit};
use min_ball::circle;
use model_laws::laws::passing_answers_keep_ranges;
use optimality::answer::passing_answers_are_best;
use solving::solve;
use std::alloc::Global;
use std::marker::Brand;
use std::str;
use std::sync::ledger::{Blank, Ledger};
use witness_check::check;
use witness_format::{AnswerBytes, print, read};

/// Three corners of a field, in metres from a stone.
const CORNERS: [(i64, i64); 3] = [(0, 0), (40, 10), (15, 60)];

fn main(rt: HostRuntime) -> Result<()> {
    let alloc = rt.alloc();
    let points = points_at(alloc, &CORNERS)?;
    let Some(cloud) = points.cloud() else {
        bail!("there are no points");
    };
    let text = smallest_circle(alloc, cloud)?;
    print!(rt; "{}", str::from_utf8(text.as_slice())?)?;
    let sets = Sets::Plane(cloud);
    println!(rt;
        "{}",
        says(is_best(alloc, &Ask::Circle, sets, text.as_slice())?)
    )?;

    let text = thinnest_strip::<Brand>(&rt, sets, Blank::new(1))?;
    let size = str::from_utf8(text.as_slice())?.lines().nth(1);
    println!(rt; "the thinnest strip: {}", size.unwrap_or(""))?;
    println!(rt;
        "{}",
        says(is_best(alloc, &Ask::Strip, sets, text.as_slice())?)
    )?;
    Ok(())
}

fn says(yes: bool) -> &'static str {
    if yes { "yes" } else { "no" }
}

/// The points at these coordinates, in this order. A coordinate past the limit is an error, and so are too many points.
fn points_at(alloc: Global, corners: &[(i64, i64)]) -> Result<Points2> {
    let mut points = Points2::new(alloc);
    for (x, y) in corners {
        let Some(p) = Point2::new(*x, *y) else {
            bail!("({x}, {y}) is out of range");
        };
        points.push(p)?;
    }
    Ok(points)
}

/// The text of the smallest circle around the points. The only error is that memory is wanting.
fn smallest_circle(alloc: Global, cloud: Cloud2<'_>) -> Result<AnswerBytes, OutOfMemory>
    ensures { IfOk result (λ text. SpellsBest ask_circle (plane (points_of cloud.entry)) text) }
{
    passing_answers_are_best();
    let answer = Answer::Circle(circle(cloud).answer());
    print(alloc, &answer)
}

/// The text of the thinnest strip around the points, with a counter of its own.
fn thinnest_strip<L: Ledger>(rt: &HostRuntime, sets: Sets<'_>, blank: Blank) -> Result<AnswerBytes>
    requires name { blank.name ≡ L.name }
    requires parts { blank.parts ≡ L.parts }
    requires some { 0 < blank.parts }
{
    let mut steps = Steps::<L>::new(rt, blank);
    best_answer(rt.alloc(), &Ask::Strip, sets, &mut steps)
}

/// The text of a best answer to a question about the points. Sets that the question is not asked of are an error; too many corners
/// and want of memory are too.
fn best_answer<L: Ledger>(
    alloc: Global,
    ask: &Ask,
    sets: Sets<'_>,
    steps: &mut Steps<L>,
) -> Result<AnswerBytes>
    requires { IsValid (asked ask.now) }
    ensures { IfOk result (λ text. SpellsBest (asked ask.now) (lent sets.entry) text) }
{
    if !fit(ask, sets) {
        bail!("the question is asked of other sets");
    }
    passing_answers_keep_ranges();
    let answer = solve(alloc, ask, sets, steps)?;
    let text = print(alloc, &answer)?;
    Ok(text)
}

/// Whether a text that anyone made spells a best answer to the question. A text that is no answer is an error.
fn is_best(alloc: Global, ask: &Ask, sets: Sets<'_>, text: &[u8]) -> Result<bool>
    requires { IsValid (asked ask.now) }
    ensures { IfOk result (λ yes. IsTrue yes → SpellsBest (asked ask.now) (lent sets.entry) text.now) }
{
    if text.len() > 1 << 23 {
        bail!("the text is too long");
    }
    let answer = read(alloc, text)?;
    Ok(check(alloc, ask, sets, &answer)?)
}
