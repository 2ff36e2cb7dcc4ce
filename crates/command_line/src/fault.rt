//! Why words are no task.

use error_texts::{ErrorText, joined, plain};
use std::alloc::AllocError;
use std::error::Error;
use std::fmt;

/// An option of a command.
#[derive(Clone, Copy, Debug, PartialEq, Eq)]
pub enum Opt {
    /// `--kind`
    Kind,
    /// `--form`
    Form,
    /// `--p`
    P,
    /// `--k`
    K,
    /// `--box`
    Frame,
    /// `--seed`
    Seed,
    /// `--count`
    Count,
    /// `--brief`
    Brief,
}

impl Opt {
    ghost use Rattle.std.specs.Prelude.{◌≡◌, ◌≤◌, length};
    ghost use Rattle.bounds_model.specs.ErrorLines.{option_name};
    ghost use Rattle.command_line.specs.Faults.{meant_option};

    /// The option's word without its dashes.
    pub fn name(self) -> &'static str
        ensures text { result.now ≡ option_name (meant_option self) }
        ensures short { length result.now ≤ 5 }
    {
        match self {
            Opt::Kind => "kind",
            Opt::Form => "form",
            Opt::P => "p",
            Opt::K => "k",
            Opt::Frame => "box",
            Opt::Seed => "seed",
            Opt::Count => "count",
            Opt::Brief => "brief",
        }
    }
}

/// Why words are no task: the first of these faults that they have, in this order, and of faults of options that of the option
/// which `Opt` has first.
#[derive(Clone, Copy, Debug, PartialEq, Eq)]
pub enum UsageFault {
    /// The words are not those of a command with its options.
    Words,
    /// No command has this word.
    UnknownCommand,
    /// The command takes another number of files.
    FileCount,
    /// The option is needed.
    MissingOption(Opt),
    /// The option is not used here.
    UnneededOption(Opt),
    /// The option does not take this value.
    BadValue(Opt),
    /// Memory was refused.
    OutOfMemory,
}

impl UsageFault {
    ghost use Rattle.std.specs.Prelude.{◌≡◌, ◌≤◌, length};
    ghost use Rattle.command_line.specs.Messages.{usage_message};

    /// What is said of the fault.
    pub fn message(self) -> ErrorText
        ensures text { result.bytes ≡ usage_message self }
        ensures short { length result.bytes ≤ 60 }
    {
        match self {
            UsageFault::Words => plain("words are not understood"),
            UsageFault::UnknownCommand => plain("unknown command"),
            UsageFault::FileCount => plain("wrong number of files"),
            UsageFault::MissingOption(option) => joined("option --", option.name(), " is missing"),
            UsageFault::UnneededOption(option) => {
                joined("option --", option.name(), " is not used here")
            }
            UsageFault::BadValue(option) => joined("option --", option.name(), " has a bad value"),
            UsageFault::OutOfMemory => plain("out of memory"),
        }
    }
}

impl fmt::Display for UsageFault {
    ghost use Rattle.std.specs.Prelude.{Some};
    ghost use Rattle.command_line.specs.Messages.{usage_message};

    ghost output = { λ fault. Some (usage_message fault) };

    fn fmt<W: fmt::Write>(&self, f: &mut fmt::Formatter<W>) -> fmt::Result {
        f.write_str(self.message().as_str())
    }
}

impl Error for UsageFault {}

impl From<AllocError> for UsageFault {
    ghost use Rattle.std.specs.Prelude.{◌≡◌};
    ghost use Rattle.command_line.specs.declared.fault.UsageFault.TheVariants.{OutOfMemory};

    ghost from_gives = { λ _ fault. fault ≡ OutOfMemory };

    fn from(_error: AllocError) -> UsageFault {
        UsageFault::OutOfMemory
    }
}
