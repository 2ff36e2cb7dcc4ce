//! The fields of a line: for each, its form, the limit of its numbers and its range.
//!
//! Those that stand in long lists are inlined. What a call gives back, the number and the words behind it, goes through memory, and that
//! takes longer than to read a short number.
ghost use Rattle.std.specs.Prelude.{◌≡◌, ◌≤◌, pos, IfSome, IfOk};
ghost use Rattle.bounds_model.specs.EmptyAnswer.Blocker.{point as side_point};
ghost use Rattle.bounds_model.specs.AnswerText.Fields as model;
ghost use Rattle.answers.specs.Answers.{blocker_of};
ghost use Rattle.answer_lines.specs.Judging.{judged_field, field_at, seen};
ghost use Rattle.answer_lines.specs.Lines.{words_left};
ghost use Rattle.answer_lines.specs.Outcomes.{Finds};

use crate::judging::{Flaw, Judged};
use crate::words::Words;
use answers::Blocker;
use byte_tools::{LIMIT, cut, natural_number, whole_number};
use exact_fractions::{Frac, Homog2, Homog3};

/// The greatest number of a point.
const POINT_LIMIT: u32 = 9999;

/// The greatest number in a list of a hull's corners.
const POSITION_LIMIT: u32 = 127;

/// A number without a sign from a least to a greatest one.
#[inline(always)]
pub fn bounded(words: Words<'_>, low: u32, high: u32) -> Option<(Judged<u32>, Words<'_>)>
    ensures field { Finds (λ x. (x.0, words_left x.1)) result (field_at (model.bounded low high) (words_left words.entry)) }
    ensures limited { IfSome result (λ x. IfOk x.0 (λ n. n ≤ high)) }
{
    if let Some((n, others)) = words.few_digits() {
        return Some((judged_bounded(u128::from(n), low, high), others));
    }
    let (word, others) = words.next()?;
    let n = natural_number(word)?;
    Some((judged_bounded(n, low, high), others))
}

fn judged_bounded(n: u128, low: u32, high: u32) -> Judged<u32>
    ensures judged { result ≡ judged_field (model.bounded low high) n }
    ensures limited { IfOk result (λ n. n ≤ high) }
{
    if n > LIMIT {
        return Err(Flaw::PastLimit);
    }
    if n < u128::from(low) || n > u128::from(high) {
        return Err(Flaw::OutOfRange);
    }
    Ok(n as u32)
}

/// The number of a point.
pub fn point_number(words: Words<'_>) -> Option<(Judged<u32>, Words<'_>)>
    ensures { Finds (λ x. (x.0, words_left x.1)) result (field_at model.point_number (words_left words.entry)) }
{
    bounded(words, 0, POINT_LIMIT)
}

/// The number of a corner in the list of a hull's corners.
pub fn position(words: Words<'_>) -> Option<(Judged<u32>, Words<'_>)>
    ensures { Finds (λ x. (x.0, words_left x.1)) result (field_at (model.bounded 0 127) (words_left words.entry)) }
{
    bounded(words, 0, POSITION_LIMIT)
}

/// What a side of an empty rectangle rests on: the word `box`, or the number of a point.
pub fn blocker(words: Words<'_>) -> Option<(Judged<Blocker>, Words<'_>)>
    ensures { Finds (λ x. (seen blocker_of x.0, words_left x.1)) result (field_at model.blocker (words_left words.entry)) }
{
    let (word, others) = words.next()?;
    if word == b"box".as_slice() {
        return Some((Ok(Blocker::Side), others));
    }
    let n = natural_number(word)?;
    Some((blocking_point(judged_bounded(n, 0, POINT_LIMIT)), others))
}

/// The point of this number as what a side rests on.
fn blocking_point(point: Judged<u32>) -> Judged<Blocker>
    ensures { seen blocker_of result ≡ seen side_point point }
{
    match point {
        Ok(number) => Ok(Blocker::Point(number)),
        Err(flaw) => Err(flaw),
    }
}

/// A number without a sign.
#[inline(always)]
pub fn natural(words: Words<'_>) -> Option<(Judged<u128>, Words<'_>)>
    ensures { Finds (λ x. (seen pos x.0, words_left x.1)) result (field_at model.natural (words_left words.entry)) }
{
    if let Some((n, others)) = words.few_digits() {
        return Some((judged_natural(u128::from(n)), others));
    }
    let (word, others) = words.next()?;
    let n = natural_number(word)?;
    Some((judged_natural(n), others))
}

fn judged_natural(n: u128) -> Judged<u128>
    ensures { seen pos result ≡ judged_field model.natural (pos n) }
{
    if n <= LIMIT {
        Ok(n)
    } else {
        Err(Flaw::PastLimit)
    }
}

/// A whole number.
#[inline(always)]
pub fn number(words: Words<'_>) -> Option<(Judged<i128>, Words<'_>)>
    ensures { Finds (λ x. (x.0, words_left x.1)) result (field_at model.number (words_left words.entry)) }
{
    if let Some((n, others)) = words.few_signed_digits() {
        return Some((judged_number(i128::from(n)), others));
    }
    let (word, others) = words.next()?;
    let n = whole_number(word)?;
    Some((judged_number(n), others))
}

fn judged_number(n: i128) -> Judged<i128>
    ensures { result ≡ judged_field model.number n }
{
    if n.unsigned_abs() > LIMIT {
        return Err(Flaw::PastLimit);
    }
    Ok(n)
}

/// A fraction in lowest terms that is not below 0.
pub fn fraction(words: Words<'_>) -> Option<(Judged<Frac>, Words<'_>)>
    ensures { Finds (λ x. (x.0, words_left x.1)) result (field_at model.fraction (words_left words.entry)) }
{
    let (word, others) = words.next()?;
    let (numerator, denominator) = cut(word, b'/');
    let n = whole_number(numerator)?;
    let d = whole_number(denominator)?;
    Some((judged_fraction(n, d), others))
}

fn judged_fraction(n: i128, d: i128) -> Judged<Frac>
    ensures { result ≡ judged_field model.fraction (record { n = n; d = d }) }
{
    if n.unsigned_abs() > LIMIT || d.unsigned_abs() > LIMIT {
        return Err(Flaw::PastLimit);
    }
    if n < 0 || d < 1 {
        return Err(Flaw::OutOfRange);
    }
    let (n, d) = (n as u128, d as u128);
    let value = Frac::new(n, d);
    if value.num() != n || value.den() != d {
        return Err(Flaw::OutOfRange);
    }
    Ok(value)
}

/// A point of the plane over a denominator, in lowest terms.
pub fn plane_ratio(words: Words<'_>) -> Option<(Judged<Homog2>, Words<'_>)>
    ensures { Finds (λ x. (x.0, words_left x.1)) result (field_at model.plane_ratio (words_left words.entry)) }
{
    let (first, words) = words.next()?;
    let (second, words) = words.next()?;
    let (third, words) = words.next()?;
    let x = whole_number(first)?;
    let y = whole_number(second)?;
    let w = whole_number(third)?;
    Some((judged_plane_ratio(x, y, w), words))
}

fn judged_plane_ratio(x: i128, y: i128, w: i128) -> Judged<Homog2>
    ensures { result ≡ judged_field model.plane_ratio (record { x = x; y = y; w = w }) }
{
    if x.unsigned_abs() > LIMIT || y.unsigned_abs() > LIMIT || w.unsigned_abs() > LIMIT {
        return Err(Flaw::PastLimit);
    }
    if w < 1 {
        return Err(Flaw::OutOfRange);
    }
    let value = Homog2::new(x, y, w);
    if value.x() != x || value.y() != y || value.w() != w {
        return Err(Flaw::OutOfRange);
    }
    Ok(value)
}

/// A point of space over a denominator, in lowest terms.
pub fn space_ratio(words: Words<'_>) -> Option<(Judged<Homog3>, Words<'_>)>
    ensures { Finds (λ x. (x.0, words_left x.1)) result (field_at model.space_ratio (words_left words.entry)) }
{
    let (first, words) = words.next()?;
    let (second, words) = words.next()?;
    let (third, words) = words.next()?;
    let (fourth, words) = words.next()?;
    let x = whole_number(first)?;
    let y = whole_number(second)?;
    let z = whole_number(third)?;
    let w = whole_number(fourth)?;
    Some((judged_space_ratio(x, y, z, w), words))
}

fn judged_space_ratio(x: i128, y: i128, z: i128, w: i128) -> Judged<Homog3>
    ensures { result ≡ judged_field model.space_ratio (record { x = x; y = y; z = z; w = w }) }
{
    if x.unsigned_abs() > LIMIT
        || y.unsigned_abs() > LIMIT
        || z.unsigned_abs() > LIMIT
        || w.unsigned_abs() > LIMIT
    {
        return Err(Flaw::PastLimit);
    }
    if w < 1 {
        return Err(Flaw::OutOfRange);
    }
    let value = Homog3::new(x, y, z, w);
    if value.x() != x || value.y() != y || value.z() != z || value.w() != w {
        return Err(Flaw::OutOfRange);
    }
    Ok(value)
}
