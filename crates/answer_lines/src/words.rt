//! The words of a line.
ghost use Rattle.std.specs.Prelude.{◌≡◌, ◌≢◌, ◌<◌, ◌==◌, ◌^◌, [], ◌∷◌, pos, Some, IfSome, MatchOption};
ghost use Rattle.std.specs.List.{slice_split};
ghost use Rattle.bounds_model.specs.AnswerText.Fields.{natural, number, value_of};
ghost use Rattle.bounds_model.specs.AnswerText.LineFormats.{after_words};
ghost use Rattle.answer_lines.specs.Outcomes.{Finds};

use byte_tools::{index_of, leading_number};

/// The words of a line that are not yet read.
#[derive(Clone, Copy)]
pub struct Words<'a> {
    /// A text in which single blanks part the words, or none where there are no more.
    text: Option<&'a [u8]>,
}

impl<'a> Words<'a> {
    ghost use Rattle.answer_lines.specs.Lines.{words_in, words_left};

    /// The words of a line, which is given without its line feed.
    pub fn new(line: &'a [u8]) -> Words<'a>
        ensures { words_left result ≡ slice_split (λ b. b == 32) line.now }
    {
        Words { text: Some(line) }
    }

    /// The next word, and those behind it.
    pub fn next(self) -> Option<(&'a [u8], Words<'a>)>
        ensures { MatchOption result (words_left self.entry ≡ [])
            (λ parts. words_left self.entry ≡ parts.0.now ∷ words_left parts.1) }
    {
        let text = self.text?;
        match index_of(text, b' ') {
            Some(index) => Some((&text[..index], Words::new(&text[index + 1..]))),
            None => Some((text, Words { text: None })),
        }
    }

    /// The next word, where it is a number without a sign of few digits, and the words behind it. It is read in one
    /// pass, and most words are such numbers.
    #[inline(always)]
    pub fn few_digits(self) -> Option<(u64, Words<'a>)>
        ensures number { IfSome result (λ x. value_of natural (words_left self.entry) ≡ Some (pos x.0, words_left x.1)) }
        ensures limited { IfSome result (λ x. x.0 < 10 ^ 18) }
    {
        let text = self.text?;
        let (size, count) = leading_number(text);
        if count == 0 || (count > 1 && text[0] == b'0') {
            return None;
        }
        if count == text.len() {
            return Some((size, Words { text: None }));
        }
        if text[count] == b' ' {
            return Some((size, Words::new(&text[count + 1..])));
        }
        None
    }

    /// The next word, where it is a whole number of few digits, and the words behind it.
    #[inline(always)]
    pub fn few_signed_digits(self) -> Option<(i64, Words<'a>)>
        ensures { IfSome result (λ x. value_of number (words_left self.entry) ≡ Some (x.0, words_left x.1)) }
    {
        match self.text? {
            [b'-', digits @ ..] => {
                let (size, others) = Words::new(digits).few_digits()?;
                if size == 0 {
                    None
                } else {
                    Some((-(size as i64), others))
                }
            }
            _ => {
                let (size, others) = self.few_digits()?;
                Some((size as i64, others))
            }
        }
    }

    /// The words behind this one, which is to be the next.
    pub fn after(self, expected: &[u8]) -> Option<Words<'a>>
        ensures { Finds words_left result (after_words (expected.now ∷ []) (words_left self.entry)) }
    {
        let (word, others) = self.next()?;
        if expected == word { Some(others) } else { None }
    }

    /// That there are no more words.
    pub fn end(self) -> Option<()>
        ensures { MatchOption result (words_left self.entry ≢ []) (λ _. words_left self.entry ≡ []) }
    {
        match self.next() {
            None => Some(()),
            Some(_) => None,
        }
    }
}
