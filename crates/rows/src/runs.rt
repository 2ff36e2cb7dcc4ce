//! Runs of the top call.
ghost use Rattle.std.specs.Prelude.{◌≡◌, ◌<◌, ◌≤◌, IsFalse, IfOk, Ok};

use crate::row::{Cut, NamedFile, Over, Row, Table};
use crate::watched::Watched;
use anyhow::Result;
use bnd_io::{Files, MemFiles, MemSink, SureFiles, SureSink};
use bounded_coords::OutOfMemory;
use bounds_start::{run_on_system, run_words};
use bounds_tool::Status;
use std::alloc::{AllocError, Global};
use std::fs;
use std::io::Write;

// The files that take what a run over the files of the system writes.
const OUT: &str = "out.txt";

const ERR: &str = "err.txt";

/// How a run ended, and what it wrote.
#[derive(Drop)]
pub(crate) struct Ending {
    pub(crate) status: u8,
    pub(crate) out: Vec<u8>,
    pub(crate) err: Vec<u8>,
}

impl Ending {
    fn new(alloc: Global, status: Status, out: &[u8], err: &[u8]) -> Result<Ending> {
        let mut ending = Ending {
            status: status.number(),
            out: Vec::new(alloc),
            err: Vec::new(alloc),
        };
        ending.out.extend_from_slice(out)?;
        ending.err.extend_from_slice(err)?;
        Ok(ending)
    }
}

/// Runs words over the files of the table and of the row. The file that is cut has this length, and pieces have this size.
pub(crate) fn run_row(
    rt: &HostRuntime,
    table: &Table,
    row: &Row,
    words: &[&str],
    length: usize,
    piece: u32,
) -> Result<Ending>
    requires { 1 ≤ piece }
{
    match row.over {
        Over::Memory => run_in_memory(rt, table, row, words, length, piece),
        Over::Sure => {
            let mut files = SureFiles::new(rt.alloc());
            add_surely(&mut files, table, row)?;
            run_to_end(rt, words, &mut files)
        }
        Over::Real => {
            for file in &row.files {
                fs::write(rt, file.name.as_str(), file.bytes.as_slice())?;
            }
            run_really(rt, words, fs::create(rt, OUT)?)
        }
        Over::Full => {
            fs::create(rt, OUT)?;
            run_really(rt, words, fs::open(rt, OUT)?)
        }
    }
}

/// How often a run of these words opens the file of this name, over files that never fail.
pub(crate) fn opens_in_run(
    rt: &HostRuntime,
    table: &Table,
    row: &Row,
    words: &[&str],
    name: &str,
) -> Result<u64> {
    let mut files = SureFiles::new(rt.alloc());
    add_surely(&mut files, table, row)?;
    let mut files = Watched::new(rt.alloc(), files, name)?;
    run_to_end(rt, words, &mut files)?;
    Ok(files.opens)
}

/// Runs words over the files of the system, one of which is written before.
pub(crate) fn check_really(
    rt: &HostRuntime,
    words: &[&str],
    name: &str,
    bytes: &[u8],
) -> Result<Ending> {
    fs::write(rt, name, bytes)?;
    run_really(rt, words, fs::create(rt, OUT)?)
}

/// Runs words over the files of the table and of the row and one more, none of which fails.
pub(crate) fn run_beside(
    rt: &HostRuntime,
    table: &Table,
    row: &Row,
    words: &[&str],
    name: &str,
    bytes: &[u8],
) -> Result<Ending> {
    let mut files = SureFiles::new(rt.alloc());
    add_surely(&mut files, table, row)?;
    stored(files.add(name, bytes))?;
    run_to_end(rt, words, &mut files)
}

fn run_in_memory(
    rt: &HostRuntime,
    table: &Table,
    row: &Row,
    words: &[&str],
    length: usize,
    piece: u32,
) -> Result<Ending>
    requires { 1 ≤ piece }
{
    let alloc = rt.alloc();
    let mut files = MemFiles::new(alloc, piece);
    add_cut(&mut files, table.shared.files.as_slice(), &row.cut, length)?;
    add_cut(&mut files, row.files.as_slice(), &row.cut, length)?;
    for call in &row.failing.files {
        stored(files.fail_at(*call))?;
    }
    let mut out = sink(alloc, piece, row.failing.out.as_slice())?;
    let mut err = sink(alloc, piece, row.failing.err.as_slice())?;
    let status = run_words(rt, words, &mut files, &mut out, &mut err);
    Ending::new(alloc, status, out.as_slice(), err.as_slice())
}

fn sink(alloc: Global, piece: u32, failing: &[u32]) -> Result<MemSink, AllocError>
    requires { 1 ≤ piece }
{
    let mut sink = stored(MemSink::new(alloc, piece))?;
    for call in failing {
        stored(sink.fail_at(*call))?;
    }
    Ok(sink)
}

fn add_cut(
    files: &mut MemFiles,
    added: &[NamedFile],
    cut: &Cut,
    length: usize,
) -> Result<(), AllocError>
    requires { IsFalse files.old.files.is_open }
    ensures { IsFalse files.new.files.is_open }
{
    for file in added {
        let bytes = file.bytes.as_slice();
        let length = if cut.name == file.name {
            length.min(bytes.len())
        } else {
            bytes.len()
        };
        stored(files.add(file.name.as_str(), &bytes[..length]))?;
    }
    Ok(())
}

fn add_surely(files: &mut SureFiles, table: &Table, row: &Row) -> Result<(), AllocError>
    requires { IsFalse files.old.is_open }
    ensures { IsFalse files.new.is_open }
{
    for file in table.shared.files.iter().chain(row.files.iter()) {
        stored(files.add(file.name.as_str(), file.bytes.as_slice()))?;
    }
    Ok(())
}

/// Runs words over these files, with sinks that never fail.
fn run_to_end<F: Files>(rt: &HostRuntime, words: &[&str], files: &mut F) -> Result<Ending> {
    let alloc = rt.alloc();
    let mut out = stored(SureSink::new(alloc))?;
    let mut err = stored(SureSink::new(alloc))?;
    let status = run_words(rt, words, files, &mut out, &mut err);
    Ending::new(alloc, status, out.as_slice(), err.as_slice())
}

/// Runs words as the program does, over the files of the system. What it writes goes to this stream, which is that of a file, and to
/// another file.
fn run_really<O: Write + Drop>(rt: &HostRuntime, words: &[&str], out: O) -> Result<Ending> {
    let status = run_on_system(rt, words, out, fs::create(rt, ERR)?);
    Ok(Ending {
        status: status.number(),
        out: fs::read(rt, OUT)?,
        err: fs::read(rt, ERR)?,
    })
}

// The same with the error that std gives for want of memory.
fn stored<T>(outcome: Result<T, OutOfMemory>) -> Result<T, AllocError>
    ensures { IfOk result (λ value. outcome ≡ Ok value) }
{
    match outcome {
        Ok(value) => Ok(value),
        Err(OutOfMemory) => Err(AllocError),
    }
}
