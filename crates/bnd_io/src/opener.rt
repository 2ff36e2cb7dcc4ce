//! What opens streams by name.
ghost use Rattle.std.specs.Prelude.{◌≡◌, ℕ, List, None, Some, IfOk, IfSome};
ghost use Rattle.std.specs.declared.option.Option.{Option};

use std::fs::File;
use std::io;
use std::io::Read;
use std::rt::Files as SystemFiles;

/// Opens streams by name, as the files of the system.
pub trait Opener {
    /// A stream that was opened.
    type Stream: Read + Drop;

    /// The bytes under a name, where they are known.
    ghost bytes: { Self → List ℕ → Option (List ℕ) } = { λ _ _. None };

    /// Opens the stream of this name at its first byte.
    fn open_stream(&self, name: &str) -> io::Result<Self::Stream>
        ensures { IfOk result (λ stream. IfSome (bytes self.now name.now) (λ known. Self.Stream.remaining stream ≡ Some known)) };
}

impl<R: SystemFiles> Opener for R {
    type Stream = R::File;

    fn open_stream(&self, name: &str) -> io::Result<R::File> {
        File::open(self, name)
    }
}
