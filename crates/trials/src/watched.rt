//! Files of which the opens of one name are counted, so that the clause on opened names is seen.
ghost use Rattle.std.specs.Prelude.{◌≡◌, ◌+◌, ◌^◌, ◌<◌, ◌≤◌, string_bytes, if◌then◌else◌, IfOk};
ghost use Rattle.std.specs.Str.{bytes_eq};

use bnd_io::{Failed, Files};
use std::alloc::{AllocError, Global};

/// Files of which the opens of one name are counted. All else is as the files below have it.
#[derive(Drop)]
pub(crate) struct Watched<F: Files + Drop> {
    files: F,
    name: String,
    pub(crate) opens: u64,
}

impl<F: Files + Drop> Watched<F> {
    /// Watches this name.
    pub(crate) fn new(alloc: Global, files: F, name: &str) -> Result<Watched<F>, AllocError>
        ensures { IfOk result (λ watched. watched.opens ≡ 0) }
    {
        Ok(Watched {
            files,
            name: String::from_str(alloc, name)?,
            opens: 0,
        })
    }
}

impl<F: Files + Drop> Files for Watched<F> {
    ghost state = { λ w. record (F.state w.files) { opens = λ name. if bytes_eq name (string_bytes w.name) then w.opens else 0 } };

    ghost last_count = { F.last_count };

    fn open(&mut self, name: &str) -> Result<(), Failed> {
        if name == self.name.as_str() {
            self.opens = self.opens.saturating_add(1);
        }
        self.files.open(name)
    }

    fn read(&mut self, buf: &mut [u8]) -> Result<usize, Failed> {
        self.files.read(buf)
    }
}
