//! The rectangles that grow upwards from one seed.
ghost use Rattle.std.specs.Prelude.{◌≡◌, ◌⊎◌, ◌+◌, ◌≤◌, ◌<◌, length, All, MatchOption, IsFalse};
ghost use Rattle.std.specs.List.{AllWithin};
ghost use Rattle.std.specs.List.Sorted.{IsNonDecreasingBy};
ghost use Rattle.empty_rectangle.specs.Rectangles.{columns, IsStrictlyBetween, IsInExtent, IsExtent, NoneEnters, IsNextEntering, IsFirstEntering, IsSeed, Covers, IsRestricted};
ghost use Rattle.empty_rectangle.specs.Seeds.{corner, above, beside};

use crate::obstacles::{Extent, Obstacle};
use crate::rectangles::{Rectangle, RestingSide, Window};

/// Where rectangles start to grow: their left side, twice the x of a column that they all meet, their bottom, and a
/// height that they all exceed.
#[derive(Clone, Copy)]
pub(crate) struct Seed {
    pub(crate) left: RestingSide,
    pub(crate) column: u32,
    pub(crate) bottom: RestingSide,
    pub(crate) least: u32,
}

impl Seed {
    /// The seed in the lower left corner of the frame.
    pub(crate) fn corner() -> Seed
        ensures { result ≡ corner }
    {
        let side = RestingSide::side(0);
        Seed {
            left: side,
            column: 1,
            bottom: side,
            least: 0,
        }
    }

    /// The seed of the rectangles whose bottom rests on the obstacle.
    pub(crate) fn above(obstacle: Obstacle) -> Seed
        requires { obstacle.x ≤ 400000 }
        ensures { result ≡ above obstacle }
    {
        Seed {
            left: RestingSide::side(0),
            column: 2 * obstacle.x,
            bottom: obstacle.level(),
            least: obstacle.y,
        }
    }

    /// The seed of the rectangles on the bottom of the frame whose left side rests on the obstacle.
    pub(crate) fn beside(obstacle: Obstacle) -> Seed
        requires { obstacle.x ≤ 400000 }
        ensures { result ≡ beside obstacle }
    {
        Seed {
            left: obstacle.vertical(),
            column: 2 * obstacle.x + 1,
            bottom: RestingSide::side(0),
            least: obstacle.y,
        }
    }
}

/// The largest rectangle that grows from the seed, where it is larger than `best`, and else `best`. A window around the column
/// begins as wide as the frame, and each obstacle in it, from the lowest up, ends one rectangle and narrows the window. The obstacles
/// before `from` are not above the seed; `xs` are the x of all, in their order.
pub(crate) fn sweep_up(
    obstacles: &[Obstacle],
    xs: &[u32],
    from: usize,
    extent: Extent,
    seed: Seed,
    best: Rectangle,
) -> Rectangle
    requires columns { xs.now ≡ columns obstacles.now }
    requires sorted { IsNonDecreasingBy (λ s. s.y) obstacles.now }
    requires inside { All (IsInExtent extent) obstacles.now }
    requires extent { IsExtent extent }
    requires seed { IsSeed obstacles.now extent from seed }
    ensures covers { Covers obstacles.now extent seed result.area }
    ensures kept { best.area ≤ result.area }
    ensures restricted { (result ≡ best) ⊎ IsRestricted obstacles.now extent result }
{
    let ceiling = RestingSide::side(extent.height);
    let mut best = best;
    let mut window = Window {
        left: seed.left,
        right: RestingSide::side(extent.width),
    };
    let whole = window.rectangle(seed.bottom, ceiling);
    if whole.area <= best.area {
        return best;
    }
    let mut passed = from;
    'rise: while let Some(k) = next_entering(obstacles, xs, passed, window, seed.bottom.at) {
        let obstacle = obstacles[k];
        let ended = window.rectangle(seed.bottom, obstacle.level());
        best = best.or(ended, seed.least);
        if 2 * obstacle.x == seed.column {
            return best;
        }
        window = window.beside(obstacle, seed.column);
        let rest = window.rectangle(seed.bottom, ceiling);
        if rest.area <= best.area {
            return best;
        }
        passed = k + 1;
    }
    best.or(window.rectangle(seed.bottom, ceiling), seed.least)
}

/// So many obstacles are compared with a window at once.
const RUN: usize = 32;

/// The index in the order of the first obstacle from `from` on that is in the window, above `bottom`. Nearly all steps of a search
/// are made here, and most obstacles are beside the window: so runs of them are passed over by their x alone. The next one is looked
/// at by itself, since on a staircase it is the one.
fn next_entering(
    obstacles: &[Obstacle],
    xs: &[u32],
    from: usize,
    window: Window,
    bottom: u32,
) -> Option<usize>
    requires columns { xs.now ≡ columns obstacles.now }
    requires start { from ≤ length obstacles.now }
    requires wide { window.left.at < window.right.at }
    ensures { MatchOption result
        (NoneEnters obstacles.now window.left.at bottom window.right.at from (length obstacles.now))
        (IsNextEntering obstacles.now window.left.at bottom window.right.at from) }
{
    if from < obstacles.len() && window.is_entered(bottom, obstacles[from]) {
        return Some(from);
    }
    let mut passed = from;
    'runs: while obstacles.len() - passed >= RUN {
        if is_run_met(xs, passed, window) {
            if let Some(k) = first_entering(obstacles, passed, passed + RUN, window, bottom) {
                return Some(k);
            }
        }
        passed += RUN;
    }
    first_entering(obstacles, passed, obstacles.len(), window, bottom)
}

/// Whether an x of the run that begins at `from` is strictly between the sides of the window. It looks at all of them and turns
/// nowhere, so that a compiler makes vector instructions of it.
fn is_run_met(xs: &[u32], from: usize, window: Window) -> bool
    requires within { from + RUN ≤ length xs.now }
    requires wide { window.left.at < window.right.at }
    ensures { IsFalse result → AllWithin (λ x. ¬ IsStrictlyBetween window.left.at window.right.at x) xs.now from (from + RUN) }
{
    let mut is_met = false;
    'run: for k in from..from + RUN {
        is_met |= window.is_around(xs[k]);
    }
    is_met
}

/// The index of the first obstacle from `from` on, and before `to`, that is in the window, above `bottom`.
fn first_entering(
    obstacles: &[Obstacle],
    from: usize,
    to: usize,
    window: Window,
    bottom: u32,
) -> Option<usize>
    requires order { from ≤ to }
    requires within { to ≤ length obstacles.now }
    requires wide { window.left.at < window.right.at }
    ensures { MatchOption result
        (NoneEnters obstacles.now window.left.at bottom window.right.at from to)
        (IsFirstEntering obstacles.now window.left.at bottom window.right.at from to) }
{
    'seek: for k in from..to {
        if window.is_entered(bottom, obstacles[k]) {
            return Some(k);
        }
    }
    None
}
