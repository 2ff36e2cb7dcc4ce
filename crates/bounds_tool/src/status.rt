//! How a run ends.
ghost use Rattle.std.specs.Prelude.{◌≡◌};
ghost use Rattle.bounds_tool.specs.Run.{status_number};

/// How a run ended.
#[derive(Clone, Copy, Debug, PartialEq, Eq)]
pub enum Status {
    /// The whole output was written, and an answer that was to be judged passes.
    Done,
    /// The answer that was to be judged does not pass, and the line that says so was written.
    No,
    /// The words are no task.
    Usage,
    /// A file is too long, or its text is refused.
    Input,
    /// A file was not opened or not read, and the fault was counted.
    Read,
    /// The output was not written whole, and the fault was counted.
    Write,
    /// Memory was refused.
    Memory,
}

impl Status {
    /// The number that the program ends with, from 0 to 6 in the order above.
    pub fn number(self) -> u8
        ensures { result ≡ status_number self }
    {
        match self {
            Status::Done => 0,
            Status::No => 1,
            Status::Usage => 2,
            Status::Input => 3,
            Status::Read => 4,
            Status::Write => 5,
            Status::Memory => 6,
        }
    }
}
