//! The order of causes on one line: its form, then the limit of all numbers, then the range of each number.
ghost use Rattle.std.specs.Prelude.{◌≡◌, Some, Ok, IfOk};
ghost use Rattle.answer_lines.specs.Judging.{both};
ghost use Rattle.answer_lines.specs.Lines.{decided};
ghost use Rattle.answer_lines.specs.Outcomes.{Reads};

use crate::ReadFault;

/// What is wrong with numbers that have the right form.
#[derive(Clone, Copy, Debug, PartialEq, Eq)]
pub enum Flaw {
    /// One is past the limit of all numbers.
    PastLimit,
    /// One is outside its range.
    OutOfRange,
}

/// A value, or what is wrong with its numbers.
pub type Judged<T> = Result<T, Flaw>;

/// Two values of one line.
pub fn both<A: Copy, B: Copy>(a: Judged<A>, b: Judged<B>) -> Judged<(A, B)>
    ensures { result ≡ both a b }
{
    match (a, b) {
        (Ok(x), Ok(y)) => Ok((x, y)),
        (Err(Flaw::PastLimit), _) | (_, Err(Flaw::PastLimit)) => Err(Flaw::PastLimit),
        _ => Err(Flaw::OutOfRange),
    }
}

/// What the line of this number says. None stands for a wrong form.
pub fn decide<T: Copy>(number: u32, says: Option<Judged<T>>) -> Result<T, ReadFault>
    ensures decided { Reads (λ x. x) result (decided number says) }
    ensures value { IfOk result (λ value. says ≡ Some (Ok value)) }
{
    match says {
        None => Err(ReadFault::BadAnswer(number)),
        Some(Err(Flaw::PastLimit)) => Err(ReadFault::BigNumber(number)),
        Some(Err(Flaw::OutOfRange)) => Err(ReadFault::BadAnswer(number)),
        Some(Ok(value)) => Ok(value),
    }
}
