//! The lines of an answer text, read one by one.
ghost use Rattle.std.specs.Prelude.{◌≡◌, ◌<◌, ◌≤◌, ◌^◌, [], ◌∷◌, ◌++◌, length, map, IfSome, IfOk, IfErr, OnOk};
ghost use Rattle.bounds_model.specs.AnswerText.LineFormats.{titled, untitled};
ghost use Rattle.bounds_model.specs.AnswerText.Formats.{Count, count_format, counted, line_at, lines_at, part_at};
ghost use Rattle.answer_lines.specs.declared.fault.ReadFault.TheVariants.{OutOfMemory};
ghost use Rattle.answer_lines.specs.Judging.{seen, said, fields_at};
ghost use Rattle.answer_lines.specs.Lines.{words_left, lines_left};
ghost use Rattle.answer_lines.specs.Outcomes.{Finds, Reads, ReadsOr};

use crate::field_list::FieldList;
use crate::judging::{Judged, decide};
use crate::line::Line;
use crate::lines::Unread;
use crate::words::Words;
use crate::{ReadFault, fields};
use answers::AnswerList;
use arrayvec::ArrayVec;
use std::alloc::Global;

// ---- one line

/// A line of a word and a value.
pub fn read_titled<T: Line>(text: &mut Unread<'_>, word: &[u8]) -> Result<T, ReadFault>
    ensures { Reads (λ value. (T.Fields.values (T.parts value), lines_left text.new)) result
        (line_at (titled word.now T.Fields.fields) (lines_left text.old)) }
{
    let number = text.number;
    let words = text.next_line()?;
    decide(number, titled_words(words, word))
}

fn titled_words<T: Line>(words: Words<'_>, word: &[u8]) -> Option<Judged<T>>
    ensures { Finds (seen (λ v. T.Fields.values (T.parts v))) result (said (titled word.now T.Fields.fields) (words_left words.entry)) }
{
    value_of(words.after(word)?)
}

/// A value whose fields take all these words.
fn value_of<T: Line>(words: Words<'_>) -> Option<Judged<T>>
    ensures { Finds (seen (λ v. T.Fields.values (T.parts v))) result (fields_at T.Fields.fields (words_left words.entry)) }
{
    match T::Fields::read(words) {
        None => None,
        Some(Err(flaw)) => Some(Err(flaw)),
        Some(Ok(fields)) => Some(Ok(T::of(fields))),
    }
}

/// A line of a value alone.
pub fn read_line<T: Line>(text: &mut Unread<'_>) -> Result<T, ReadFault>
    ensures { Reads (λ value. (T.Fields.values (T.parts value), lines_left text.new)) result
        (line_at (untitled T.Fields.fields) (lines_left text.old)) }
{
    let number = text.number;
    let words = text.next_line()?;
    decide(number, value_of(words))
}

/// A word and a number from `low` to `high`.
pub fn read_count(text: &mut Unread<'_>, word: &[u8], low: u32, high: u32) -> Result<u32, ReadFault>
    ensures count { Reads (λ n. ((n, tt), lines_left text.new)) result
        (line_at (count_format (record { word = word.now; low = low; high = high })) (lines_left text.old)) }
    ensures limited { IfOk result (λ n. n ≤ high) }
{
    let number = text.number;
    let words = text.next_line()?;
    decide(number, count_words(words, word, low, high))
}

fn count_words(words: Words<'_>, word: &[u8], low: u32, high: u32) -> Option<Judged<u32>>
    ensures count { Finds (seen (λ n. (n, tt))) result
        (said (count_format (record { word = word.now; low = low; high = high })) (words_left words.entry)) }
    ensures limited { IfSome result (λ count. IfOk count (λ n. n ≤ high)) }
{
    let words = words.after(word)?;
    let (count, words) = fields::bounded(words, low, high)?;
    words.end()?;
    Some(count)
}

// ---- several lines

/// The line of a count, and as many lines, from `low` to `CAP`.
pub fn read_counted<T: Line + Default, const CAP: usize>(
    text: &mut Unread<'_>,
    word: &[u8],
    low: u32,
) -> Result<ArrayVec<T, CAP>, ReadFault>
    requires { CAP < 2 ^ 32 }
    ensures { Reads (λ values. (map (λ v. T.Fields.values (T.parts v)) values.items, lines_left text.new)) result
        (part_at (counted (record { word = word.now; low = low; high = CAP }) 0 T.Fields.fields) [] (lines_left text.old)) }
{
    let count = read_count(text, word, low, CAP as u32)?;
    read_lines(text, count)
}

/// So many lines.
fn read_lines<T: Line + Default, const CAP: usize>(
    text: &mut Unread<'_>,
    count: u32,
) -> Result<ArrayVec<T, CAP>, ReadFault>
    requires { count ≤ CAP }
    ensures { Reads (λ values. (map (λ v. T.Fields.values (T.parts v)) values.items, lines_left text.new)) result
        (lines_at count (untitled T.Fields.fields) (lines_left text.old)) }
{
    let mut values = ArrayVec::new();
    for _ in 0..count {
        let value = read_line(text)?;
        values.push(value);
    }
    Ok(values)
}

/// The line of a count from `low` to `high`, and as many lines, less a few, as a list.
pub fn read_listed<T: Line>(
    alloc: Global,
    text: &mut Unread<'_>,
    word: &[u8],
    low: u32,
    high: u32,
    less: u32,
) -> Result<AnswerList<T>, ReadFault>
    requires { high ≤ 1000000 }
    ensures lines { ReadsOr (Unit {0}) (λ values. (map (λ v. T.Fields.values (T.parts v)) values, lines_left text.new)) result
        (part_at (counted (record { word = word.now; low = low; high = high }) less T.Fields.fields) [] (lines_left text.old)) }
    ensures limited { IfOk result (λ values. length values ≤ high) }
{
    let count = read_count(text, word, low, high)?;
    read_list(alloc, text, count.saturating_sub(less))
}

/// So many lines, as a list.
fn read_list<T: Line>(
    alloc: Global,
    text: &mut Unread<'_>,
    count: u32,
) -> Result<AnswerList<T>, ReadFault>
    requires { count ≤ 1000000 }
    ensures lines { ReadsOr (Unit {0}) (λ values. (map (λ v. T.Fields.values (T.parts v)) values, lines_left text.new)) result
        (lines_at count (untitled T.Fields.fields) (lines_left text.old)) }
    ensures amount { IfOk result (λ values. length values ≡ count) }
{
    let mut values = list_for(alloc, text, count);
    for _ in 0..count {
        let value = read_line(text)?;
        add(&mut values, value)?;
    }
    Ok(values)
}

/// The fewest bytes of a line of a list: a word, a blank, a digit and the end.
const SHORTEST_LINE: usize = 4;

/// The empty list, with room for the values of so many lines to come, and for no more than the text can hold.
pub fn list_for<T: Copy>(alloc: Global, text: &Unread<'_>, count: u32) -> AnswerList<T>
    ensures { result ≡ [] }
{
    let most = text.size() / SHORTEST_LINE;
    AnswerList::with_capacity(alloc, count.min(most as u32))
}

/// Adds a value that was read.
pub fn add<T: Copy>(values: &mut AnswerList<T>, value: T) -> Result<(), ReadFault>
    requires { length values.old < 1000000 }
    ensures added { OnOk result (values.new ≡ values.old ++ value ∷ []) }
    ensures fault { IfErr result (λ fault. fault ≡ OutOfMemory) }
{
    match values.push(value) {
        Ok(()) => Ok(()),
        Err(_) => Err(ReadFault::OutOfMemory),
    }
}
