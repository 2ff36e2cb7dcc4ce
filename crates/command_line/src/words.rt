//! The words of a command line as a whole.
ghost use Rattle.std.specs.Prelude.{◌≡◌, ◌≢◌, ◌<◌, ◌^◌, IfOk, IfErr, Ok, Err, map};
ghost use Rattle.bounds_model.specs.Asks.{IsValid};
ghost use Rattle.bounded_coords.specs.Asked.{asked};
ghost use Rattle.command_line.specs.Faults.{meant_fault, Judges};
ghost use Rattle.command_line.specs.Given.{meant_given};
ghost use Rattle.command_line.specs.Options.{solving, checking, demonstrating};
ghost use Rattle.command_line.specs.Tasks.{meant_task, ask_of, HasDemoCounts, CanBeDone};
ghost use Rattle.command_line.specs.Words.{task_of, judged, judged_as};

use crate::kind::{Kind, kind_named};
use crate::options::{ask, form, kind, number, unneeded, unneeded_flag};
use crate::parsing::{Given, parse};
use crate::{Opt, Task, UsageFault};
use std::alloc::Global;

/// The task of the words after the program's name, or the first fault of them. The words are a command and its files, and options
/// as `--name value` or `--name=value` anywhere among them: `KIND FILE`, `check POINTS ANSWER`, or `demo`.
pub fn read_words<'a>(alloc: Global, words: &'a [&'a str]) -> Result<Task<'a>, UsageFault>
    ensures task { IfOk result (λ task. task_of (map (λ w. w.now) words.entry.now) ≡ Ok (meant_task task)) }
    ensures fault { IfErr result
        (λ fault. fault ≢ UsageFault.OutOfMemory → task_of (map (λ w. w.now) words.entry.now) ≡ Err (meant_fault fault)) }
    ensures valid { IfOk result (λ task. IsValid (asked (ask_of task))) }
    ensures counts { IfOk result HasDemoCounts }
{
    let matches = parse(alloc, words)?;
    judge(&Given::of(&matches))
}

/// The task of what the words give.
fn judge<'a>(given: &Given<'a, '_>) -> Result<Task<'a>, UsageFault>
    ensures task { Judges meant_task result (judged (meant_given given.now)) }
    ensures able { IfOk result CanBeDone }
{
    match given.command {
        "check" => check(given),
        "demo" => demo(given),
        word => match kind_named(word) {
            Some(kind) => solve(kind, given),
            None => Err(UsageFault::UnknownCommand),
        },
    }
}

fn solve<'a>(kind: Kind, given: &Given<'a, '_>) -> Result<Task<'a>, UsageFault>
    ensures task { Judges meant_task result (judged_as (solving kind) (meant_given given.now)) }
    ensures able { IfOk result CanBeDone }
{
    let file = given.one_file()?;
    unneeded(Opt::Kind, given.kind)?;
    let form = form(given.form)?;
    let ask = ask(kind, given)?;
    unneeded(Opt::Seed, given.seed)?;
    unneeded(Opt::Count, given.count)?;
    Ok(Task::Solve {
        ask,
        form,
        brief: given.brief,
        file,
    })
}

fn check<'a>(given: &Given<'a, '_>) -> Result<Task<'a>, UsageFault>
    ensures task { Judges meant_task result (judged_as checking (meant_given given.now)) }
    ensures able { IfOk result CanBeDone }
{
    let (points, answer) = given.two_files()?;
    let kind = kind(given.kind)?;
    let form = form(given.form)?;
    let ask = ask(kind, given)?;
    unneeded(Opt::Seed, given.seed)?;
    unneeded(Opt::Count, given.count)?;
    unneeded_flag(Opt::Brief, given.brief)?;
    Ok(Task::Check {
        ask,
        form,
        points,
        answer,
    })
}

fn demo<'a>(given: &Given<'a, '_>) -> Result<Task<'a>, UsageFault>
    ensures task { Judges meant_task result (judged_as demonstrating (meant_given given.now)) }
    ensures able { IfOk result CanBeDone }
{
    given.no_file()?;
    let kind = kind(given.kind)?;
    unneeded(Opt::Form, given.form)?;
    let ask = ask(kind, given)?;
    let seed = number(Opt::Seed, 0, 2_147_483_647, given.seed)?;
    let count = number(Opt::Count, 1, 10_000, given.count)?;
    unneeded_flag(Opt::Brief, given.brief)?;
    Ok(Task::Demo { ask, seed, count })
}
