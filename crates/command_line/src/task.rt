//! What words call for.
ghost use Rattle.std.specs.Prelude.{◌≡◌};
ghost use Rattle.command_line.specs.Tasks.{text_of};

use bounded_coords::Ask;
use point_text::Form;

/// The name of a file.
#[derive(Clone, Copy, Debug, PartialEq, Eq)]
pub struct Name<'a> {
    text: &'a str,
}

impl<'a> Name<'a> {
    /// The file of this name.
    pub(crate) fn new(text: &'a str) -> Name<'a>
        ensures { text_of result ≡ text.entry.now }
    {
        Name { text }
    }

    /// The name as the words have it.
    pub fn as_str(&self) -> &'a str
        ensures { result.now ≡ text_of self.now }
    {
        self.text
    }
}

/// What words call for. What is asked is valid, and of a kind that is answered.
#[derive(Clone, Copy, Debug, PartialEq, Eq)]
pub enum Task<'a> {
    /// To answer what is asked of the points in a file of this form, or to tell the size of the answer alone.
    Solve {
        ask: Ask,
        form: Form,
        brief: bool,
        file: Name<'a>,
    },
    /// To judge an answer by the points, in a file of this form, that it is about.
    Check {
        ask: Ask,
        form: Form,
        points: Name<'a>,
        answer: Name<'a>,
    },
    /// To answer what is asked of points made from a seed below 2^31, 1 to 10000 of them in each set.
    Demo {
        ask: Ask,
        seed: u32,
        count: u32,
    },
}
