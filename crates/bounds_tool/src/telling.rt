//! The error line of a cause: `bounds: `, what the cause's fault says, and a line feed. It has at most 80 bytes, lies on the stack, and
//! is offered to its sink in one piece.
ghost use Rattle.std.specs.Prelude.{◌≡◌, ◌≤◌, length};
ghost use Rattle.bounds_model.specs.ErrorLines.{error_line, file_name, out_of_memory};
ghost use Rattle.command_line.specs.Faults.{meant_fault};
ghost use Rattle.point_text.specs.Refusals.{refusal_of};
ghost use Rattle.point_text.specs.Messages.{text_message};
ghost use Rattle.answer_lines.specs.Messages.{read_message};
ghost use Rattle.bounds_tool.specs.Causes.{meant, meant_file, without_sets, unread, unsolved};
ghost use Rattle.bounds_tool.specs.Telling.{Told};

use crate::cause::{Cause, InputFile};
use bnd_io::{Sink, write_all};
use command_line::UsageFault;
use error_texts::{ErrorText, joined, numbered, plain};
use point_text::TextFault;
use solving::SolveFault;
use witness_format::ReadFault;

/// Writes the line that says why there is no whole output. It takes no memory. Where the sink fails, a prefix of the line was
/// written.
pub(crate) fn tell<E: Sink>(err: &mut E, cause: Cause)
    ensures { Told E.last_count (error_line (meant cause)) (E.state err.old) (E.state err.new) }
{
    let line = line_of(cause);
    let _ = write_all(err, line.as_str().as_bytes());
}

/// The line of a cause.
#[tactic(auto, unfolding(bounds_model::specs::ErrorLines::error_line))]
fn line_of(cause: Cause) -> ErrorText
    ensures { result.bytes ≡ error_line (meant cause) }
{
    match cause {
        Cause::Usage(fault) => usage_line(fault),
        Cause::NotOpened(file) => joined("bounds: ", name(file), ": cannot be opened\n"),
        Cause::NotRead(file) => joined("bounds: ", name(file), ": cannot be read\n"),
        Cause::TooLong(file) => joined("bounds: ", name(file), ": file is too long\n"),
        Cause::Points(fault) => points_line(fault),
        Cause::Answer(fault) => answer_line(fault),
        Cause::Solving(fault) => solving_line(fault),
        Cause::OutputNotWritten => plain("bounds: output cannot be written\n"),
        Cause::OutOfMemory => memory_line(),
    }
}

/// The line of want of memory.
#[tactic(auto, unfolding(bounds_model::specs::ErrorLines::error_line))]
fn memory_line() -> ErrorText
    ensures { result.bytes ≡ error_line out_of_memory }
{
    plain("bounds: out of memory\n")
}

/// What the file is called.
fn name(file: InputFile) -> &'static str
    ensures text { result.now ≡ file_name (meant_file file) }
    ensures short { length result.now ≡ 6 }
{
    match file {
        InputFile::Points => "points",
        InputFile::Answer => "answer",
    }
}

/// The line of words that are no task.
fn usage_line(fault: UsageFault) -> ErrorText
    ensures { result.bytes ≡ error_line (meant_fault fault) }
{
    match fault {
        UsageFault::OutOfMemory => memory_line(),
        _ => joined("bounds: usage: ", fault.message().as_str(), "\n"),
    }
}

/// The line of a text of points that is refused.
fn points_line(fault: TextFault) -> ErrorText
    ensures { result.bytes ≡ error_line (without_sets (refusal_of fault)) }
{
    match fault {
        TextFault::OutOfMemory => memory_line(),
        _ => joined("bounds: points: ", points_message(fault).as_str(), "\n"),
    }
}

/// The line of a text that is no answer.
fn answer_line(fault: ReadFault) -> ErrorText
    ensures { result.bytes ≡ error_line (unread fault) }
{
    match fault {
        ReadFault::OutOfMemory => memory_line(),
        _ => joined("bounds: answer: ", answer_message(fault).as_str(), "\n"),
    }
}

/// The line of a question without an answer, which is one of the points.
fn solving_line(fault: SolveFault) -> ErrorText
    ensures { result.bytes ≡ error_line (unsolved fault) }
{
    match fault {
        SolveFault::OutOfMemory => memory_line(),
        _ => joined("bounds: points: ", fault.message().as_str(), "\n"),
    }
}

/// What is said of a text of points that is refused.
fn points_message(fault: TextFault) -> ErrorText
    ensures text { result.bytes ≡ text_message fault }
    ensures short { length result.bytes ≤ 60 }
{
    match fault {
        TextFault::BadLine(line) => numbered("line ", line, " is not a point"),
        TextFault::OutOfRange(line) => numbered("line ", line, " is out of range"),
        TextFault::TooMany(line) => numbered("line ", line, " is one point too many"),
        TextFault::NoPoints(set) => numbered("set ", set, " has no points"),
        TextFault::WrongSets(count) => numbered("found ", count, " sets"),
        TextFault::OutOfMemory => plain("out of memory"),
    }
}

/// What is said of a text that is no answer.
fn answer_message(fault: ReadFault) -> ErrorText
    ensures text { result.bytes ≡ read_message fault }
    ensures short { length result.bytes ≤ 60 }
{
    match fault {
        ReadFault::BadAnswer(line) => numbered("line ", line, " is not understood"),
        ReadFault::BigNumber(line) => numbered("line ", line, " has a number past the limit"),
        ReadFault::OutOfMemory => plain("out of memory"),
    }
}
