//! Named files in memory, of which at most one is open.
ghost use Rattle.std.specs.Prelude.{⊤, ◌≡◌, ◌↔◌, ◌<◌, ◌≤◌, ◌∷◌, length, take, min, string_bytes, IsSome, IsTrue, IsFalse, IfSome, IfOk, OnOk, OnErr};
ghost use Rattle.bnd_io.specs.Files.{bytes_of, has_name};
ghost use Rattle.bnd_io.specs.Folders.{no_files, with_file, at_start, closed, behind};
ghost use Rattle.bnd_io.specs.FolderFields.{bytes_at, folder_of, is_open, open_bytes, IsOfListedFile};

use bounded_coords::OutOfMemory;
use std::alloc::{AllocError, Global};
use std::marker::Model;

#[derive(Drop)]
struct NamedFile {
    name: String,
    bytes: Vec<u8>,
}

/// What is open.
#[derive(Clone, Copy)]
enum Current {
    /// No file.
    Closed,
    /// A file that is not there, which has no bytes.
    Absent,
    /// The file at this index.
    File(usize),
}

/// Named files, and the index in the open one.
#[derive(Drop)]
pub(crate) struct OpenFolder {
    alloc: Global,
    files: Vec<NamedFile>,
    current: Current,
    at: usize,
    taken: u64,
    ended: bool,
    total: u64,
}

impl Model for OpenFolder {
    ghost use Rattle.bnd_io.specs.Folders.{FolderView};

    ghost Value = { FolderView };

    ghost use Rattle.bnd_io.specs.FolderFields.{folder_view, IsSound};

    ghost view = { folder_view };

    ghost invariant = { IsSound };
}

impl OpenFolder {
    /// No files.
    pub(crate) fn new(alloc: Global) -> OpenFolder
        ensures { result ≡ no_files }
    {
        OpenFolder {
            alloc,
            files: Vec::new(alloc),
            current: Current::Closed,
            at: 0,
            taken: 0,
            ended: false,
            total: 0,
        }
    }

    /// Adds a file while none is open. A name that was added before gets the new bytes.
    pub(crate) fn add(&mut self, name: &str, bytes: &[u8]) -> Result<(), OutOfMemory>
        requires { IsFalse self.old.is_open }
        ensures added { OnOk result (self.new ≡ with_file self.old name.now bytes.now) }
        ensures err { OnErr result (self.new ≡ self.old) }
    {
        match named_file(self.alloc, name, bytes) {
            Ok(file) => match self.files.insert(0, file) {
                Ok(()) => Ok(()),
                Err(_) => Err(OutOfMemory),
            },
            Err(_) => Err(OutOfMemory),
        }
    }

    /// Whether there is a file of this name.
    pub(crate) fn has(&self, name: &str) -> bool
        ensures { IsTrue result ↔ IsTrue (has_name self.now.folder name.now) }
    {
        index_of(&self.files, name).is_some()
    }

    /// Opens the file of this name at its first byte. One that is not there has no bytes.
    pub(crate) fn open(&mut self, name: &str)
        ensures { self.new ≡ at_start self.old name.now }
    {
        self.current = named(&self.files, name);
        self.at = 0;
        self.taken = 0;
        self.ended = false;
    }

    /// Closes the open file, if one is.
    pub(crate) fn close(&mut self)
        ensures { self.new ≡ closed self.old }
    {
        self.current = Current::Closed;
        self.at = 0;
    }

    /// Reads the next bytes of the open file, at most so many, into the front of `buf`, and says how many.
    pub(crate) fn read(&mut self, buf: &mut [u8], most: usize) -> usize
        ensures count { result ≡ min most (min (length buf.old) (length self.old.left)) }
        ensures same_length { length buf.new ≡ length buf.old }
        ensures bytes { take result buf.new ≡ take result self.old.left }
        ensures state { self.new ≡ behind self.old result }
    {
        let bytes = current_bytes(&self.files, self.current);
        let left = &bytes[self.at..];
        let n = buf.len().min(left.len()).min(most);
        buf[..n].copy_from_slice(&left[..n]);
        self.at += n;
        self.taken = self.taken.saturating_add(n as u64);
        self.total = self.total.saturating_add(n as u64);
        self.ended = self.ended || n == 0;
        n
    }
}

// The newest file of this name, or a file of no bytes.
fn named(files: &[NamedFile], name: &str) -> Current
    ensures open { IsTrue (is_open result) }
    ensures index { IsOfListedFile files.now result }
    ensures bytes { open_bytes files.now result ≡ bytes_of (folder_of files.now) name.now }
{
    match index_of(files, name) {
        Some(index) => Current::File(index),
        None => Current::Absent,
    }
}

// The bytes of the open file, or none where no file is open.
fn current_bytes(files: &[NamedFile], current: Current) -> &[u8]
    requires { IsOfListedFile files.now current }
    ensures { result.now ≡ open_bytes files.now current }
{
    match current {
        Current::Closed | Current::Absent => &[],
        Current::File(i) => &files[i].bytes,
    }
}

// Where the newest file of this name stands in the list.
fn index_of(files: &[NamedFile], name: &str) -> Option<usize>
    ensures within { IfSome result (λ i. i < length files.now) }
    ensures bytes { IfSome result (λ i. bytes_at files.now i ≡ bytes_of (folder_of files.now) name.now) }
    ensures found { IsSome result ↔ IsTrue (has_name (folder_of files.now) name.now) }
{
    for (i, file) in files.iter().enumerate() {
        if file.name.as_str() == name {
            return Some(i);
        }
    }
    None
}

// A copy of the name and the bytes.
fn named_file(alloc: Global, name: &str, bytes: &[u8]) -> Result<NamedFile, AllocError>
    ensures name { IfOk result (λ f. string_bytes f.name ≡ name.now) }
    ensures bytes { IfOk result (λ f. f.bytes.items ≡ bytes.now) }
{
    Ok(NamedFile {
        name: String::from_str(alloc, name)?,
        bytes: bytes.to_vec(alloc)?,
    })
}
