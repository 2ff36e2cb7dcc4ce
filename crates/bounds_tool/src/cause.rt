//! Why a run gives no whole output.

use crate::Status;
use bounded_coords::OutOfMemory;
use command_line::UsageFault;
use point_text::TextFault;
use solving::SolveFault;
use std::alloc::AllocError;
use witness_format::ReadFault;

/// A file that a command names.
#[derive(Clone, Copy, Debug, PartialEq, Eq)]
pub(crate) enum InputFile {
    /// The point file.
    Points,
    /// The answer file of `check`.
    Answer,
}

/// Why a run gives no whole output.
#[derive(Clone, Copy, Debug, PartialEq, Eq)]
pub(crate) enum Cause {
    /// The words are no task.
    Usage(UsageFault),
    /// The file was not opened.
    NotOpened(InputFile),
    /// The file was not read.
    NotRead(InputFile),
    /// The file is longer than its limit.
    TooLong(InputFile),
    /// The text of the point file has no sets.
    Points(TextFault),
    /// The text of the answer file has no answer.
    Answer(ReadFault),
    /// The question has no answer.
    Solving(SolveFault),
    /// The output was not written whole.
    OutputNotWritten,
    /// Memory was refused.
    OutOfMemory,
}

impl Cause {
    ghost use Rattle.std.specs.Prelude.{◌≡◌};
    ghost use Rattle.bounds_tool.specs.Causes.{meant};
    ghost use Rattle.bounds_tool.specs.Run.{cause_status};

    /// The status that the run ends with.
    pub(crate) fn status(self) -> Status
        ensures { result ≡ cause_status (meant self) }
    {
        match self {
            Cause::Usage(UsageFault::OutOfMemory)
            | Cause::Points(TextFault::OutOfMemory)
            | Cause::Answer(ReadFault::OutOfMemory)
            | Cause::Solving(SolveFault::OutOfMemory)
            | Cause::OutOfMemory => Status::Memory,
            Cause::Usage(_) => Status::Usage,
            Cause::NotOpened(_) | Cause::NotRead(_) => Status::Read,
            Cause::TooLong(_) | Cause::Points(_) | Cause::Answer(_) | Cause::Solving(_) => {
                Status::Input
            }
            Cause::OutputNotWritten => Status::Write,
        }
    }
}

impl From<TextFault> for Cause {
    ghost use Rattle.std.specs.Prelude.{◌≡◌};
    ghost use Rattle.bounds_tool.specs.declared.cause.Cause.TheVariants as cause;

    ghost from_gives = { λ fault made. made ≡ cause.Points fault };

    fn from(fault: TextFault) -> Cause {
        Cause::Points(fault)
    }
}

impl From<ReadFault> for Cause {
    ghost use Rattle.std.specs.Prelude.{◌≡◌};
    ghost use Rattle.bounds_tool.specs.declared.cause.Cause.TheVariants as cause;

    ghost from_gives = { λ fault made. made ≡ cause.Answer fault };

    fn from(fault: ReadFault) -> Cause {
        Cause::Answer(fault)
    }
}

impl From<SolveFault> for Cause {
    ghost use Rattle.std.specs.Prelude.{◌≡◌};
    ghost use Rattle.bounds_tool.specs.declared.cause.Cause.TheVariants as cause;

    ghost from_gives = { λ fault made. made ≡ cause.Solving fault };

    fn from(fault: SolveFault) -> Cause {
        Cause::Solving(fault)
    }
}

impl From<OutOfMemory> for Cause {
    ghost use Rattle.std.specs.Prelude.{◌≡◌};
    ghost use Rattle.bounds_tool.specs.declared.cause.Cause.TheVariants as cause;

    ghost from_gives = { λ _ made. made ≡ cause.OutOfMemory };

    fn from(_: OutOfMemory) -> Cause {
        Cause::OutOfMemory
    }
}

impl From<AllocError> for Cause {
    ghost use Rattle.std.specs.Prelude.{◌≡◌};
    ghost use Rattle.bounds_tool.specs.declared.cause.Cause.TheVariants as cause;

    ghost from_gives = { λ _ made. made ≡ cause.OutOfMemory };

    fn from(_: AllocError) -> Cause {
        Cause::OutOfMemory
    }
}
