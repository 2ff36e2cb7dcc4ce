//! The rows of potentials: lines of numbers, whose widths the counts before them give.
ghost use Rattle.std.specs.Prelude.{◌≡◌, ◌+◌, ◌≤◌, ◌++◌, length, map, pos, Ok, OnOk, IfOk, IfErr};
ghost use Rattle.bounds_model.specs.AnswerText.Formats.{rows_at};
ghost use Rattle.bounds_model.specs.AnswerText.Kinds.{triangle};
ghost use Rattle.bounds_model.specs.AnswerText.Written.{format_line, row_format, rows_bytes};
ghost use Rattle.answer_lines.specs.declared.fault.ReadFault.TheVariants.{OutOfMemory};
ghost use Rattle.answer_lines.specs.Judging.{seen};
ghost use Rattle.answer_lines.specs.Lines.{words_left, lines_left};
ghost use Rattle.answer_lines.specs.Outcomes.{Finds, ReadsOr};
ghost use Rattle.answer_lines.specs.Printed.{numbers_behind};
ghost use Rattle.witness_format.specs.Rows.{row_behind, naturals_behind, put_behind, worse_of};

use crate::ReadFault;
use crate::row_widths::RowWidths;
use answer_lines::{Flaw, Judged, Unread, Words, add, decide, natural, push, push_natural};
use answers::Potentials;
use std::alloc::{AllocError, Global};

// ---- reading

/// The numbers of `layers` rows of each width, from the longest down to 1.
pub(crate) fn read_rows(
    alloc: Global,
    text: &mut Unread<'_>,
    longest: u32,
    layers: u32,
) -> Result<Potentials, ReadFault>
    requires longest { longest ≤ 127 }
    requires layers { layers ≤ 10 }
    ensures { ReadsOr (Unit {0})
        (λ numbers. (map pos numbers, lines_left text.new)) result (rows_at (triangle longest layers) (lines_left text.old)) }
{
    let mut widths = RowWidths::new(longest, layers);
    let mut numbers = Potentials::new(alloc);
    'rows: while let Some(width) = widths.next() {
        read_row(text, width, &mut numbers)?;
    }
    Ok(numbers)
}

/// Adds the numbers of a row.
fn read_row(text: &mut Unread<'_>, width: u32, numbers: &mut Potentials) -> Result<(), ReadFault>
    requires { length numbers.old + width ≤ 1000000 }
    ensures row { ReadsOr (Unit {0})
        (λ _. (map pos numbers.new, lines_left text.new)) result (row_behind (map pos numbers.old) width (lines_left text.old)) }
    ensures amount { OnOk result (length numbers.new ≤ length numbers.old + width) }
{
    let number = text.number;
    let words = text.next_line()?;
    let says = add_naturals(words, width, numbers)?;
    decide(number, says)
}

/// Adds so many numbers without a sign, which are to be all these words. Where one is past the limit, the others are added.
fn add_naturals(
    words: Words<'_>,
    count: u32,
    numbers: &mut Potentials,
) -> Result<Option<Judged<()>>, ReadFault>
    requires { length numbers.old + count ≤ 1000000 }
    ensures says { IfOk result
        (λ says. Finds (seen (λ _. map pos numbers.new)) says (naturals_behind (Ok (map pos numbers.old)) count (words_left words.entry))) }
    ensures amount { IfOk result (λ says. length numbers.new ≤ length numbers.old + count) }
    ensures fault { IfErr result (λ fault. fault ≡ OutOfMemory) }
{
    let mut so_far = Ok(());
    let mut left = words;
    'words: for _ in 0..count {
        let Some((n, others)) = natural(left) else {
            return Ok(None);
        };
        so_far = add_natural(numbers, so_far, n)?;
        left = others;
    }
    match left.end() {
        None => Ok(None),
        Some(()) => Ok(Some(so_far)),
    }
}

/// Adds a number, where it is within the limit, and says whether all so far are.
fn add_natural(
    numbers: &mut Potentials,
    so_far: Judged<()>,
    n: Judged<u128>,
) -> Result<Judged<()>, ReadFault>
    requires { length numbers.old + 1 ≤ 1000000 }
    ensures says { IfOk result (λ now. seen (λ _. map pos numbers.new) now ≡ put_behind (seen (λ _. map pos numbers.old) so_far) (seen pos n)) }
    ensures amount { IfOk result (λ now. length numbers.new ≤ length numbers.old + 1) }
    ensures fault { IfErr result (λ fault. fault ≡ OutOfMemory) }
{
    match n {
        Ok(n) => {
            add(numbers, n)?;
            Ok(so_far)
        }
        Err(flaw) => Ok(Err(worse(so_far, flaw))),
    }
}

/// What is wrong with numbers of which the last has this flaw.
fn worse(so_far: Judged<()>, flaw: Flaw) -> Flaw
    ensures { result ≡ worse_of so_far flaw }
{
    match so_far {
        Err(Flaw::PastLimit) => Flaw::PastLimit,
        _ => flaw,
    }
}

// ---- printing

/// These numbers, in `layers` rows of each width, from the longest down to 1.
pub(crate) fn push_rows(
    text: &mut Vec<u8>,
    longest: u32,
    layers: u32,
    numbers: &[u128],
) -> Result<(), AllocError>
    ensures { OnOk result (text.new.items ≡ text.old.items ++ rows_bytes (triangle longest layers) (map pos numbers.now)) }
{
    let mut widths = RowWidths::new(longest, layers);
    let mut rest = numbers;
    'rows: while let Some(width) = widths.next() {
        let (row, others) = rest.split_at((width as usize).min(rest.len()));
        push_row(text, row)?;
        rest = others;
    }
    Ok(())
}

/// A line of these numbers.
fn push_row(text: &mut Vec<u8>, row: &[u128]) -> Result<(), AllocError>
    ensures { OnOk result (text.new.items ≡ text.old.items ++ format_line (row_format (length row.now)) (map pos row.now, tt)) }
{
    if row.is_empty() {
        return push(text, b"\n");
    }
    push_natural(text, row[0])?;
    push_behind(text, &row[1..])?;
    push(text, b"\n")
}

/// These numbers, each behind a blank.
fn push_behind(text: &mut Vec<u8>, numbers: &[u128]) -> Result<(), AllocError>
    ensures { OnOk result (text.new.items ≡ text.old.items ++ numbers_behind numbers.now) }
{
    'numbers: for n in numbers {
        push(text, b" ")?;
        push_natural(text, *n)?;
    }
    Ok(())
}
