//! Worked rows of the top call, as data. Each argument names a table beside this program; a row of it says what is run, and how
//! each run ends. A line is printed for each wrong row, and at the end how many rows there are.
//!
//! - `bytes`: how a table writes bytes
//! - `row`: a row, and how its lines are read
//! - `runs`: runs of the top call
//! - `watched`: files of which opens are counted
//! - `judging`: whether the runs of a row end as the row says
#![tactic(auto)]

mod bytes;
mod judging;
mod row;
mod runs;
mod watched;

use anyhow::{Context, Result};
use judging::is_right;
use row::{Row, Table, first_word};
use std::{env, fs};

/// How many rows there are, and how many of them are wrong.
#[derive(Drop)]
struct Tally {
    rows: u32,
    wrong: u32,
}

fn main(rt: HostRuntime) -> Result<()> {
    let mut tally = Tally { rows: 0, wrong: 0 };
    for name in env::args(&rt)?.skip(1) {
        let text = fs::read_to_string(&rt, name.as_str())?;
        judge_table(&rt, name.as_str(), text.as_str(), &mut tally)?;
    }
    println!(rt; "{} rows, {} wrong", tally.rows, tally.wrong)?;
    Ok(())
}

/// Judges the rows of a table. A blank line and one that begins with `#` say nothing.
fn judge_table(rt: &HostRuntime, name: &str, text: &str, tally: &mut Tally) -> Result<()> {
    let mut table = Table::new(rt.alloc(), name)?;
    let mut current: Option<Row> = None;
    for (number, line) in text.lines().enumerate() {
        if line.is_empty() || line.starts_with('#') {
            continue;
        }
        let number = number.saturating_add(1);
        let (key, rest) = first_word(line);
        if key == "row" {
            judge(rt, &table, current.take(), tally)?;
            current = Some(Row::new(rt.alloc(), rest, number)?);
        } else {
            match &mut current {
                Some(row) => row.take_line(key, rest),
                None => table.shared.take_line(key, rest),
            }
            .context(format_args!("{name}, line {number}"))?;
        }
    }
    judge(rt, &table, current, tally)
}

fn judge(rt: &HostRuntime, table: &Table, row: Option<Row>, tally: &mut Tally) -> Result<()> {
    if let Some(row) = row {
        tally.rows = tally.rows.saturating_add(1);
        if !is_right(rt, table, &row)? {
            tally.wrong = tally.wrong.saturating_add(1);
        }
    }
    Ok(())
}
