//! What a run writes.
ghost use Rattle.std.specs.Prelude.{◌≡◌};
ghost use Rattle.bounds_tool.specs.Outputs.{bytes_of, status_of};

use crate::Status;
use witness_format::AnswerBytes;

/// A whole output, before its first byte is written.
#[derive(Debug, Drop)]
pub(crate) enum Output {
    /// The text of an answer.
    Solution(AnswerBytes),
    /// The line of the size of a best answer.
    Size(Vec<u8>),
    /// Whether an answer that was to be judged passes.
    Verdict(bool),
    /// How many points were made, and the size of a best answer.
    Demonstration(Vec<u8>),
}

impl Output {
    /// The bytes: those of a text, or `yes` or `no` and a line feed.
    pub(crate) fn as_slice(&self) -> &[u8]
        ensures { result.now ≡ bytes_of self.now }
    {
        match self {
            Output::Solution(text) => text.as_slice(),
            Output::Size(text) => text.as_slice(),
            Output::Verdict(true) => b"yes\n",
            Output::Verdict(false) => b"no\n",
            Output::Demonstration(text) => text.as_slice(),
        }
    }

    /// The status that the run ends with once this is written.
    pub(crate) fn status(&self) -> Status
        ensures { result ≡ status_of self.now }
    {
        match self {
            Output::Solution(_)
            | Output::Size(_)
            | Output::Verdict(true)
            | Output::Demonstration(_) => Status::Done,
            Output::Verdict(false) => Status::No,
        }
    }
}
