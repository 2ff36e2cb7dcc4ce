//! The program `bounds` but for its `main`: it takes the words, makes the real files, sinks and counter, and gives the status's number.
//! The streams come from the caller, so that worked rows can look at what goes to each.
#![tactic(auto)]

ghost use Rattle.std.specs.Prelude.{◌≡◌, ◌⊎◌, ◌<◌, ◌≤◌, map, drop, string_bytes, IsErr, IfOk};
ghost use Rattle.std.specs.Vec.Iter.{into_iter_items};
ghost use Rattle.command_line.specs.Words.{task_of};
ghost use Rattle.bounds_tool.specs.Run.{texts, IsCheck};
ghost use Rattle.bounds_start.specs.Runs.{Runs};

use bnd_io::{Files, RealFiles, RealSink, Sink, write_all};
use bounded_coords::Steps;
use bounds_tool::{Status, run};
use std::alloc::{AllocError, Global};
use std::env;
use std::env::Args;
use std::io::{ErrorKind, Write};
use std::marker::Brand;
use std::sync::ledger::{Blank, Ledger};

/// The status where memory is refused before the run.
const NO_MEMORY: u8 = 6;

/// The status where a word is no text.
const NO_WORDS: u8 = 7;

/// Runs the words that the process was given over the files of the system, with these streams for the output and for the error
/// line, and gives the status's number, or 7 where a word is not UTF-8. No clause can name the words of a process.
pub fn start<O: Write + Drop, E: Write + Drop>(rt: &HostRuntime, out: O, err: E) -> u8
    ensures { result ≤ 7 }
{
    let args = match env::args(rt) {
        Ok(args) => args,
        Err(e) if e.kind() == ErrorKind::OutOfMemory => return give_up(err, NO_MEMORY),
        Err(_) => return give_up(err, NO_WORDS),
    };
    match kept(rt.alloc(), args) {
        Ok(texts) => match lent(rt.alloc(), &texts) {
            Ok(words) => run_on_system(rt, &words, out, err).number(),
            Err(AllocError) => give_up(err, NO_MEMORY),
        },
        Err(AllocError) => give_up(err, NO_MEMORY),
    }
}

/// Writes the line of a run that cannot begin, and gives its status.
fn give_up<E: Write + Drop>(err: E, status: u8) -> u8
    ensures { result ≡ status }
{
    let mut err = RealSink::new(err);
    let line: &[u8] = if status == NO_MEMORY {
        b"bounds: out of memory\n"
    } else {
        b"bounds: words are not UTF-8\n"
    };
    let _ = write_all(&mut err, line);
    status
}

/// The words behind the first, which is the program's name.
fn kept(alloc: Global, args: Args) -> Result<Vec<String>, AllocError>
    ensures { IfOk result (λ texts. texts.items ≡ drop 1 (into_iter_items args)) }
{
    args.skip(1).collect(alloc)
}

/// The words as texts that are lent.
fn lent(alloc: Global, kept: &[String]) -> Result<Vec<&str>, AllocError>
    ensures { IfOk result (λ words. texts words.items ≡ map string_bytes kept.now) }
{
    let mut words = Vec::new(alloc);
    'words: for word in kept {
        words.push(word.as_str())?;
    }
    Ok(words)
}

/// Runs these words over the files of the system, with these streams. Its files and streams tell no bytes, so its clauses are those on the
/// words alone.
pub fn run_on_system<O: Write + Drop, E: Write + Drop>(
    rt: &HostRuntime,
    words: &[&str],
    out: O,
    err: E,
) -> Status
    ensures usage { result ≡ Status.Usage → IsErr (task_of (texts words.now)) }
    ensures words { IsErr (task_of (texts words.now)) → (result ≡ Status.Usage) ⊎ (result ≡ Status.Memory) }
    ensures verdict { result ≡ Status.No → IsCheck (task_of (texts words.now)) }
{
    let mut files = RealFiles::new(*rt);
    let mut out = RealSink::new(out);
    let mut err = RealSink::new(err);
    run_words(rt, words, &mut files, &mut out, &mut err)
}

/// Runs these words over any files, with any streams and a counter that was never used. It is the top call in all but the counter.
pub fn run_words<F: Files, O: Sink, E: Sink>(
    rt: &HostRuntime,
    words: &[&str],
    files: &mut F,
    out: &mut O,
    err: &mut E,
) -> Status
    ensures runs { Runs F.last_count O.last_count E.last_count (texts words.now) (F.state files.old) (F.state files.new)
        (O.state out.old) (O.state out.new) (E.state err.old) (E.state err.new) result }
{
    run_counted::<F, O, E, Brand>(rt, words, files, out, err, Blank::new(1))
}

fn run_counted<F: Files, O: Sink, E: Sink, L: Ledger>(
    rt: &HostRuntime,
    words: &[&str],
    files: &mut F,
    out: &mut O,
    err: &mut E,
    blank: Blank,
) -> Status
    requires name { blank.name ≡ L.name }
    requires parts { blank.parts ≡ L.parts }
    requires some { 0 < blank.parts }
    ensures runs { Runs F.last_count O.last_count E.last_count (texts words.now) (F.state files.old) (F.state files.new)
        (O.state out.old) (O.state out.new) (E.state err.old) (E.state err.new) result }
{
    let mut steps = Steps::<L>::new(rt, blank);
    run(rt.alloc(), words, files, out, err, &mut steps)
}
