//! Files in memory that never fail, which tell their bytes.
ghost use Rattle.std.specs.Prelude.{◌≡◌, ◌<◌, length, take, min, Ok, OnOk, OnErr, IfOk, IsTrue, IsFalse, None};
ghost use Rattle.bnd_io.specs.Files.{Took};
ghost use Rattle.bnd_io.specs.Folders.{no_files, with_file, at_start, behind};
ghost use Rattle.bnd_io.specs.Sure.{sure_files};

use crate::folder::OpenFolder;
use crate::{Failed, Files};
use bounded_coords::OutOfMemory;
use std::alloc::Global;
use std::marker::Model;

/// Files in memory that never fail. A name that was not added opens as a file of no bytes, and a read fills its buffer as
/// far as the file goes.
#[derive(Drop)]
pub struct SureFiles {
    folder: OpenFolder,
}

impl Model for SureFiles {
    ghost use Rattle.bnd_io.specs.Folders.{FolderView};

    ghost Value = { FolderView };

    ghost view = { λ f. f.folder };
}

impl SureFiles {
    /// No files.
    pub fn new(alloc: Global) -> SureFiles
        ensures { result ≡ no_files }
    {
        SureFiles {
            folder: OpenFolder::new(alloc),
        }
    }

    /// Adds a file while none is open. A name that was added before gets the new bytes.
    pub fn add(&mut self, name: &str, bytes: &[u8]) -> Result<(), OutOfMemory>
        requires { IsFalse self.old.is_open }
        ensures added { OnOk result (self.new ≡ with_file self.old name.now bytes.now) }
        ensures err { OnErr result (self.new ≡ self.old) }
    {
        self.folder.add(name, bytes)
    }
}

impl Files for SureFiles {
    ghost state = { sure_files };

    ghost last_count = { None };

    fn open(&mut self, name: &str) -> Result<(), Failed>
        ensures sure { result ≡ Ok tt }
        ensures opened { self.new ≡ at_start self.old name.now }
    {
        self.folder.open(name);
        Ok(())
    }

    fn read(&mut self, buf: &mut [u8]) -> Result<usize, Failed>
        requires is_open { IsTrue self.old.is_open }
        requires has_room { 0 < length buf.old }
        ensures sure { result ≡ Ok (min (length buf.old) (length self.old.left)) }
        ensures same_length { length buf.new ≡ length buf.old }
        ensures bytes { IfOk result (λ n. take n buf.new ≡ take n self.old.left) }
        ensures state { IfOk result (λ n. self.new ≡ behind self.old n) }
        ensures took { IfOk result (λ n. Took (sure_files self.old) (sure_files self.new) (take n buf.new)) }
    {
        let most = buf.len();
        Ok(self.folder.read(buf, most))
    }
}
