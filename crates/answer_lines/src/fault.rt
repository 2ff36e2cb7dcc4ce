//! Why an answer text is refused.

use std::error::Error;
use std::fmt;

/// Why an answer text was refused. Lines are counted from 1.
#[derive(Clone, Copy, Debug, PartialEq, Eq)]
pub enum ReadFault {
    /// The line of this number is not what the lines before it call for, or a number on it is outside its
    /// range.
    BadAnswer(u32),
    /// A number on the line of this number is past the limit.
    BigNumber(u32),
    /// Memory was refused. This comes only for a kind whose answers hold a list outside themselves.
    OutOfMemory,
}

impl fmt::Display for ReadFault {
    ghost use Rattle.std.specs.Prelude.{Some};
    ghost use Rattle.answer_lines.specs.Messages.{read_message};

    ghost output = { λ fault. Some (read_message fault) };

    fn fmt<W: fmt::Write>(&self, f: &mut fmt::Formatter<W>) -> fmt::Result {
        match *self {
            ReadFault::BadAnswer(line) => write!(f, "line {line} is not understood"),
            ReadFault::BigNumber(line) => write!(f, "line {line} has a number past the limit"),
            ReadFault::OutOfMemory => f.write_str("out of memory"),
        }
    }
}

impl Error for ReadFault {}
