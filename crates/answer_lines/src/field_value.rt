//! Values that stand in a line as one field, as they are read and as they are printed.
ghost use Rattle.std.specs.Prelude.{◌≡◌, List, ◌∷◌, ◌++◌, pos, OnOk};
ghost use Rattle.bounds_model.specs.AnswerText.Fields.{Field, Value, number, natural, bounded, fraction, plane_ratio, space_ratio, blocker, point_number};
ghost use Rattle.bounds_model.specs.AnswerText.Written.{field_words};
ghost use Rattle.answers.specs.Answers.{blocker_of};
ghost use Rattle.answer_lines.specs.Judging.{seen, field_at};
ghost use Rattle.answer_lines.specs.Lines.{words_left};
ghost use Rattle.answer_lines.specs.Outcomes.{Finds};
ghost use Rattle.answer_lines.specs.Printed.{joined, HasWord};

use crate::fields;
use crate::judging::Judged;
use crate::line_printing::{
    push, push_fraction, push_natural, push_plane_ratio, push_space_ratio, push_whole,
};
use crate::words::Words;
use answers::Blocker;
use exact_fractions::{Frac, Homog2, Homog3};
use std::alloc::AllocError;

/// A value that is one field of a line.
pub trait FieldValue: Copy {
    /// The field.
    ghost field: { Field };

    /// What it says of this value.
    ghost value: { Self → Value field };

    /// Reads the field that comes next. None where its words have another form.
    fn read(words: Words<'_>) -> Option<(Judged<Self>, Words<'_>)>
        ensures { Finds (λ x. (seen value x.0, words_left x.1)) result (field_at field (words_left words.entry)) };

    /// Writes the field behind a text.
    fn print(&self, text: &mut Vec<u8>) -> Result<(), AllocError>
        ensures { OnOk result (text.new.items ≡ text.old.items ++ joined (field_words field (value self.now))) };

    /// A field is a word at least.
    ghost written: { (x : Self) → HasWord (field_words field (value x)) };
}

/// The number of a point.
impl FieldValue for u32 {
    ghost field = { point_number };

    ghost value = { λ n. n };

    fn read(words: Words<'_>) -> Option<(Judged<u32>, Words<'_>)> {
        fields::point_number(words)
    }

    fn print(&self, text: &mut Vec<u8>) -> Result<(), AllocError> {
        push_natural(text, u128::from(*self))
    }

    ghost written = { λ x. tt };
}

/// The number of a corner in the list of a hull's corners.
#[derive(Clone, Copy, Debug, Default, PartialEq, Eq)]
pub struct Position {
    pub number: u32,
}

impl FieldValue for Position {
    ghost field = { bounded 0 127 };

    ghost value = { λ p. p.number };

    fn read(words: Words<'_>) -> Option<(Judged<Position>, Words<'_>)> {
        let (number, words) = fields::position(words)?;
        match number {
            Ok(number) => Some((Ok(Position { number }), words)),
            Err(flaw) => Some((Err(flaw), words)),
        }
    }

    fn print(&self, text: &mut Vec<u8>) -> Result<(), AllocError> {
        push_natural(text, u128::from(self.number))
    }

    ghost written = { λ x. tt };
}

/// A number without a sign.
impl FieldValue for u128 {
    ghost field = { natural };

    ghost value = { pos };

    fn read(words: Words<'_>) -> Option<(Judged<u128>, Words<'_>)> {
        fields::natural(words)
    }

    fn print(&self, text: &mut Vec<u8>) -> Result<(), AllocError> {
        push_natural(text, *self)
    }

    ghost written = { λ x. tt };
}

/// A whole number.
impl FieldValue for i128 {
    ghost field = { number };

    ghost value = { λ z. z };

    fn read(words: Words<'_>) -> Option<(Judged<i128>, Words<'_>)> {
        fields::number(words)
    }

    fn print(&self, text: &mut Vec<u8>) -> Result<(), AllocError> {
        push_whole(text, *self)
    }

    ghost written = { λ x. tt };
}

/// A fraction in lowest terms.
impl FieldValue for Frac {
    ghost field = { fraction };

    ghost value = { λ a. a };

    fn read(words: Words<'_>) -> Option<(Judged<Frac>, Words<'_>)> {
        fields::fraction(words)
    }

    fn print(&self, text: &mut Vec<u8>) -> Result<(), AllocError> {
        push_fraction(text, self)
    }

    ghost written = { λ x. tt };
}

/// A point of the plane over a denominator.
impl FieldValue for Homog2 {
    ghost field = { plane_ratio };

    ghost value = { λ c. c };

    fn read(words: Words<'_>) -> Option<(Judged<Homog2>, Words<'_>)> {
        fields::plane_ratio(words)
    }

    fn print(&self, text: &mut Vec<u8>) -> Result<(), AllocError> {
        push_plane_ratio(text, self)
    }

    ghost written = { λ x. tt };
}

/// A point of space over a denominator.
impl FieldValue for Homog3 {
    ghost field = { space_ratio };

    ghost value = { λ c. c };

    fn read(words: Words<'_>) -> Option<(Judged<Homog3>, Words<'_>)> {
        fields::space_ratio(words)
    }

    fn print(&self, text: &mut Vec<u8>) -> Result<(), AllocError> {
        push_space_ratio(text, self)
    }

    ghost written = { λ x. tt };
}

/// What a side of an empty rectangle rests on.
impl FieldValue for Blocker {
    ghost field = { blocker };

    ghost value = { blocker_of };

    fn read(words: Words<'_>) -> Option<(Judged<Blocker>, Words<'_>)> {
        fields::blocker(words)
    }

    fn print(&self, text: &mut Vec<u8>) -> Result<(), AllocError> {
        match self {
            Blocker::Side => push(text, b"box"),
            Blocker::Point(number) => push_natural(text, u128::from(*number)),
        }
    }

    ghost written = { λ x. tt };
}
