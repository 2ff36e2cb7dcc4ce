//! Values that stand in a line as fields, one after the other: nothing, or a field and more.
ghost use Rattle.std.specs.Prelude.{◌≡◌, List, [], ◌∷◌, ◌++◌, OnOk};
ghost use Rattle.bounds_model.specs.AnswerText.Fields.{Field};
ghost use Rattle.bounds_model.specs.AnswerText.Kinds as model;
ghost use Rattle.bounds_model.specs.AnswerText.LineFormats.{Values};
ghost use Rattle.bounds_model.specs.AnswerText.Written.{values_words};
ghost use Rattle.answer_lines.specs.Chords.{chord_values};
ghost use Rattle.answer_lines.specs.Judging.{seen, fields_at};
ghost use Rattle.answer_lines.specs.Lines.{words_left};
ghost use Rattle.answer_lines.specs.Outcomes.{Finds};
ghost use Rattle.answer_lines.specs.Printed.{joined, behind_blanks};

use crate::field_value::FieldValue;
use crate::judging::{Judged, both};
use crate::line::Six;
use crate::line_printing::push;
use crate::words::Words;
use answers::Chord;
use std::alloc::AllocError;

/// A value that is the fields of a line.
pub trait FieldList: Copy {
    /// The fields.
    ghost fields: { List Field };

    /// What they say of this value.
    ghost values: { Self → Values fields };

    /// Reads words that are to be these fields. None where they have another form.
    fn read(words: Words<'_>) -> Option<Judged<Self>>
        ensures { Finds (seen values) result (fields_at fields (words_left words.entry)) };

    /// Writes the fields behind a text, the first without a blank before it.
    fn print(&self, text: &mut Vec<u8>) -> Result<(), AllocError>
        ensures { OnOk result (text.new.items ≡ text.old.items ++ joined (values_words fields (values self.now))) };

    /// Writes the fields behind a text, each behind a blank.
    fn print_behind(&self, text: &mut Vec<u8>) -> Result<(), AllocError>
        ensures { OnOk result (text.new.items ≡ text.old.items ++ behind_blanks (values_words fields (values self.now))) };
}

/// No field at all.
impl FieldList for () {
    ghost fields = { [] };

    ghost values = { λ _. tt };

    fn read(words: Words<'_>) -> Option<Judged<()>> {
        words.end()?;
        Some(Ok(()))
    }

    fn print(&self, _text: &mut Vec<u8>) -> Result<(), AllocError> {
        Ok(())
    }

    fn print_behind(&self, _text: &mut Vec<u8>) -> Result<(), AllocError> {
        Ok(())
    }
}

/// A field, and more fields.
impl<A: FieldValue, B: FieldList> FieldList for (A, B) {
    ghost fields = { A.field ∷ B.fields };

    ghost values = { λ x. (A.value x.0, B.values x.1) };

    fn read(words: Words<'_>) -> Option<Judged<(A, B)>> {
        let (first, words) = A::read(words)?;
        let others = B::read(words)?;
        Some(both(first, others))
    }

    fn print(&self, text: &mut Vec<u8>) -> Result<(), AllocError> {
        self.0.print(text)?;
        self.1.print_behind(text)
    }

    fn print_behind(&self, text: &mut Vec<u8>) -> Result<(), AllocError> {
        push(text, b" ")?;
        self.0.print(text)?;
        self.1.print_behind(text)
    }
}

/// The fields of a chord.
type ChordFields = Six<u32, u32, u32, u128, u128, i128>;

/// A chord's fields, one after the other.
fn chord_fields(chord: &Chord) -> ChordFields
    ensures { result ≡ (chord.now.a, (chord.now.b, (chord.now.c, (chord.now.beta, (chord.now.gamma, (chord.now.k, tt)))))) }
{
    let weights = (chord.beta, (chord.gamma, (chord.k, ())));
    (chord.a, (chord.b, (chord.c, weights)))
}

/// A chord, at the end of a line.
impl FieldList for Chord {
    ghost fields = { model.chord_fields };

    ghost values = { chord_values };

    // Inlined, as its fields are.
    #[inline(always)]
    fn read(words: Words<'_>) -> Option<Judged<Chord>> {
        match ChordFields::read(words)? {
            Ok((a, (b, (c, (beta, (gamma, (k, ()))))))) => Some(Ok(Chord {
                a,
                b,
                c,
                beta,
                gamma,
                k,
            })),
            Err(flaw) => Some(Err(flaw)),
        }
    }

    fn print(&self, text: &mut Vec<u8>) -> Result<(), AllocError> {
        chord_fields(self).print(text)
    }

    fn print_behind(&self, text: &mut Vec<u8>) -> Result<(), AllocError> {
        chord_fields(self).print_behind(text)
    }
}
