//! The lines of a text.
ghost use Rattle.std.specs.Prelude.{◌≡◌, ◌+◌, ◌≤◌, ◌^◌, length};
ghost use Rattle.answer_lines.specs.Outcomes.{Reads};

use crate::ReadFault;
use crate::words::Words;
use byte_tools::index_of;

/// The lines of a text that are not yet read, and the number of the first of them.
#[derive(Drop)]
pub struct Unread<'a> {
    pub number: u32,
    bytes: &'a [u8],
    ghost counted: { number + length bytes.now ≤ 2 ^ 23 + 1 },
}

impl<'a> Unread<'a> {
    ghost use Rattle.bounds_model.specs.AnswerText.Reading.{all_lines};
    ghost use Rattle.answer_lines.specs.Lines.{words_left, lines_left, next_words, no_lines};

    /// All lines of a text.
    pub fn all(bytes: &'a [u8]) -> Unread<'a>
        requires { length bytes.now ≤ 2 ^ 23 }
        ensures { lines_left result ≡ all_lines bytes.now }
    {
        Unread { number: 1, bytes }
    }

    /// The words of the next line, which is then read.
    pub fn next_line(&mut self) -> Result<Words<'a>, ReadFault>
        ensures { Reads (λ words. (words_left words, lines_left self.new)) result (next_words (lines_left self.old)) }
    {
        match index_of(self.bytes, b'\n') {
            Some(index) => {
                let line = &self.bytes[..index];
                *self = Unread {
                    number: self.number + 1,
                    bytes: &self.bytes[index + 1..],
                };
                Ok(Words::new(line))
            }
            None => Err(ReadFault::BadAnswer(self.number)),
        }
    }

    /// How many bytes they have.
    pub fn size(&self) -> usize
        ensures { result ≤ 2 ^ 23 + 1 }
    {
        self.bytes.len()
    }

    /// That there are no more lines.
    pub fn end(&self) -> Result<(), ReadFault>
        ensures { Reads (λ x. x) result (no_lines (lines_left self.now)) }
    {
        if self.bytes.is_empty() {
            Ok(())
        } else {
            Err(ReadFault::BadAnswer(self.number))
        }
    }
}
