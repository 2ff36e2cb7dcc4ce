//! Why a question has no answer.

use bounded_coords::OutOfMemory;
use error_texts::{ErrorText, numbered, plain};
use extremal_kgon::KgonFault;
use four_centres::FourFault;
use std::error::Error;
use std::fmt;

/// Why a question has no answer.
#[derive(Clone, Copy, Debug, PartialEq, Eq)]
pub enum SolveFault {
    /// The hull of the points has so many corners, more than a polygon is asked of.
    TooManyCorners(u32),
    /// There are so many points, more than four centres are asked of.
    TooManyPoints(u32),
    /// Memory was refused.
    OutOfMemory,
}

impl SolveFault {
    ghost use Rattle.std.specs.Prelude.{◌≡◌, ◌≤◌, length};
    ghost use Rattle.solving.specs.Messages.{solve_message};

    /// What is said of the fault.
    pub fn message(self) -> ErrorText
        ensures text { result.bytes ≡ solve_message self }
        ensures short { length result.bytes ≤ 60 }
    {
        match self {
            SolveFault::TooManyCorners(count) => {
                numbered("", count, " corners, at most 128 are taken")
            }
            SolveFault::TooManyPoints(count) => {
                numbered(
                    "",
                    count,
                    " points, at most 1000 are taken for four centres",
                )
            }
            SolveFault::OutOfMemory => plain("out of memory"),
        }
    }
}

impl fmt::Display for SolveFault {
    ghost use Rattle.std.specs.Prelude.{Some};
    ghost use Rattle.solving.specs.Messages.{solve_message};

    ghost output = { λ fault. Some (solve_message fault) };

    fn fmt<W: fmt::Write>(&self, f: &mut fmt::Formatter<W>) -> fmt::Result {
        f.write_str(self.message().as_str())
    }
}

impl Error for SolveFault {}

impl From<OutOfMemory> for SolveFault {
    ghost use Rattle.std.specs.Prelude.{◌≡◌};
    ghost use Rattle.solving.specs.declared.fault.SolveFault.TheVariants as fault;

    ghost from_gives = { λ _ f. f ≡ fault.OutOfMemory };

    fn from(_: OutOfMemory) -> SolveFault {
        SolveFault::OutOfMemory
    }
}

impl From<KgonFault> for SolveFault {
    ghost use Rattle.std.specs.Prelude.{◌≡◌};
    ghost use Rattle.solving.specs.Faults.{unsolved_kgon};

    ghost from_gives = { λ fault f. f ≡ unsolved_kgon fault };

    fn from(fault: KgonFault) -> SolveFault {
        match fault {
            KgonFault::TooManyCorners(count) => SolveFault::TooManyCorners(count),
            KgonFault::OutOfMemory => SolveFault::OutOfMemory,
        }
    }
}

impl From<FourFault> for SolveFault {
    ghost use Rattle.std.specs.Prelude.{◌≡◌};
    ghost use Rattle.solving.specs.Faults.{unsolved_four};

    ghost from_gives = { λ fault f. f ≡ unsolved_four fault };

    fn from(fault: FourFault) -> SolveFault {
        match fault {
            FourFault::TooManyPoints(count) => SolveFault::TooManyPoints(count),
            FourFault::OutOfMemory => SolveFault::OutOfMemory,
        }
    }
}
