//! Whether the runs of a row end as the row says.

use crate::row::{Over, Row, Table};
use crate::runs::{Ending, check_really, opens_in_run, run_beside, run_row};
use anyhow::Result;
use std::alloc::{AllocError, Global};
use std::io;

// The sizes of the pieces, where a row names none.
const PIECES: [u32; 3] = [1, 3, 16];

/// Whether the row has runs and each ends as it says. The first that does not is printed.
pub(crate) fn is_right(rt: &HostRuntime, table: &Table, row: &Row) -> Result<bool> {
    let pieces = if row.pieces.is_empty() {
        PIECES.as_slice()
    } else {
        row.pieces.as_slice()
    };
    for words in &row.words {
        for piece in pieces {
            if !is_right_in_pieces(rt, table, row, words.as_str(), (*piece).max(1))? {
                return Ok(false);
            }
        }
    }
    if row.words.is_empty() {
        print_row(rt, table, row)?;
        println!(rt; "it has no words")?;
    }
    Ok(!row.words.is_empty())
}

fn is_right_in_pieces(
    rt: &HostRuntime,
    table: &Table,
    row: &Row,
    line: &str,
    piece: u32,
) -> Result<bool> {
    let words = split_words(rt.alloc(), line)?;
    for opened in &row.opened {
        let name = opened.name.as_str();
        let opens = opens_in_run(rt, table, row, words.as_slice(), name)?;
        if opens != opened.count {
            print_row(rt, table, row)?;
            println!(rt; "{line} opens {name} {opens} times")?;
            return Ok(false);
        }
    }
    for length in row.cut.from..=row.cut.to {
        let ending = run_row(rt, table, row, words.as_slice(), length, piece.max(1))?;
        if !is_wanted(row, &ending) {
            print_row(rt, table, row)?;
            println!(rt; "{line} ends with status {}", ending.status)?;
            print_bytes(rt, "out", ending.out.as_slice())?;
            print_bytes(rt, "told", ending.err.as_slice())?;
            return Ok(false);
        }
        if row.is_checked && !is_passing(rt, table, row, words.as_slice(), &ending)? {
            print_row(rt, table, row)?;
            println!(rt; "check says no to what {line} answers")?;
            print_bytes(rt, "out", ending.out.as_slice())?;
            return Ok(false);
        }
    }
    Ok(true)
}

/// Whether a run ended as the row says.
fn is_wanted(row: &Row, ending: &Ending) -> bool {
    let is_out = if row.goes_on {
        ending.out.as_slice().starts_with(row.out.as_slice())
    } else {
        ending.out == row.out
    };
    ending.status == row.status && ending.err == row.err && is_out
}

/// Whether `check` says yes to the output, for the kind, the file and the options of these words.
fn is_passing(
    rt: &HostRuntime,
    table: &Table,
    row: &Row,
    words: &[&str],
    ending: &Ending,
) -> Result<bool> {
    let [kind, file, options @ ..] = words else {
        return Ok(false);
    };
    let answer = "answer.txt";
    let mut check = vec![in rt.alloc(); "check", *file, answer, "--kind", *kind]?;
    check.extend_from_slice(options)?;
    let text = ending.out.as_slice();
    let said = match row.over {
        Over::Real | Over::Full => check_really(rt, check.as_slice(), answer, text)?,
        _ => run_beside(rt, table, row, check.as_slice(), answer, text)?,
    };
    Ok(said.status == 0)
}

fn print_row(rt: &HostRuntime, table: &Table, row: &Row) -> io::Result<()> {
    let line = row.line;
    print!(rt; "{}, line {line}, {}: ", table.name, row.name)
}

fn print_bytes(rt: &HostRuntime, what: &str, bytes: &[u8]) -> io::Result<()> {
    println!(rt; "  {what} {}", bytes.escape_ascii())
}

/// The words of a line, each behind a space. The word of no letters is written `\e`.
fn split_words<'a>(alloc: Global, line: &'a str) -> Result<Vec<&'a str>, AllocError> {
    let mut words = Vec::new(alloc);
    if line.is_empty() {
        return Ok(words);
    }
    for word in line.split(' ') {
        words.push(if word == "\\e" { "" } else { word })?;
    }
    Ok(words)
}
