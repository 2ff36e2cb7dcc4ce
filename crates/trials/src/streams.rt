//! What files and streams of the system do, which no clause says.

use bnd_io::{Failed, Files, LoadFault, Opener, RealFiles, RealSink, WriteFault, load, write_all};
use std::fs::File;
use std::io::{ErrorKind, Read, Write};
use std::test::Fail;
use std::{env, fs, io};

const BYTES: &[u8] = b"# plot 7\n0 0\n3 1\n";

/// A writer that takes so many bytes at a write, and no byte where it has no room left.
#[derive(Drop)]
struct Narrow<'a> {
    width: usize,
    room: usize,
    taken: &'a mut Vec<u8>,
}

impl Write for Narrow<'_> {
    fn write(&mut self, buf: &[u8]) -> io::Result<usize> {
        let n = buf.len().min(self.width).min(self.room);
        self.taken.extend_from_slice(&buf[..n])?;
        self.room -= n;
        Ok(n)
    }

    fn flush(&mut self) -> io::Result<()> {
        Ok(())
    }
}

/// A reader that gives four bytes, and fails at each later read.
#[derive(Drop)]
struct Broken {
    was_read: bool,
}

impl Read for Broken {
    fn read(&mut self, buf: &mut [u8]) -> io::Result<usize> {
        if self.was_read {
            return Err(io::Error::from(ErrorKind::Other));
        }
        self.was_read = true;
        let bytes = b"0 0\n";
        let n = buf.len().min(bytes.len());
        buf[..n].copy_from_slice(&bytes[..n]);
        Ok(n)
    }
}

/// Opens a reader that fails, whatever the name.
#[derive(Drop)]
struct BrokenStreams;

impl Opener for BrokenStreams {
    type Stream = Broken;

    fn open_stream(&self, _name: &str) -> io::Result<Broken> {
        Ok(Broken { was_read: false })
    }
}

#[test]
fn files_are_written_and_loaded_whole(rt: HostRuntime) -> Result<(), Fail> {
    let alloc = rt.alloc();
    let folder = env::temp_dir(&rt)?;
    let path = folder.join(alloc, "bounds-trials-points")?;
    // Longer than any buffer of a run or of a pipe.
    let many = vec![in alloc; b'7'; 300_000]?;
    {
        let mut out = RealSink::new(File::create(&rt, path.as_str())?);
        write_all(&mut out, &many)?;
        write_all(&mut out, BYTES)?;
    }
    // The same file by a name of more than 255 bytes.
    let mut name = String::new(alloc);
    name.push_str(folder.as_str())?;
    for _ in 0..150 {
        name.push_str("/.")?;
    }
    name.push_str("/bounds-trials-points")?;
    let mut files = RealFiles::new(rt);
    files.open(name.as_str())?;
    let whole = load(alloc, &mut files, 1 << 20)?;
    assert_eq!(rt; whole.as_slice().len(), 300_000 + BYTES.len());
    assert!(rt; whole.as_slice().starts_with(&many));
    assert!(rt; whole.as_slice().ends_with(BYTES));
    files.open(path.as_str())?;
    assert_eq!(rt;
        load(alloc, &mut files, 300_000).err(),
        Some(LoadFault::TooLong)
    );
    fs::remove_file(&rt, path.as_str())?;
    assert_eq!(rt; files.open(path.as_str()), Err(Failed));
    // A folder opens, and its first read fails.
    files.open(folder.as_str())?;
    assert_eq!(rt;
        load(alloc, &mut files, 16).err(),
        Some(LoadFault::ReadFailed)
    );
    Ok(())
}

#[test]
fn streams_take_less_or_nothing_or_fail(rt: HostRuntime) -> Result<(), Fail> {
    let alloc = rt.alloc();
    for (room, whole) in [(17, true), (20, true), (16, false), (4, false), (0, false)] {
        let mut taken = Vec::new(alloc);
        let stream = Narrow {
            width: 3,
            room,
            taken: &mut taken,
        };
        let outcome = write_all(&mut RealSink::new(stream), BYTES);
        assert_eq!(rt; outcome.is_ok(), whole, "room for {room}");
        assert_eq!(rt; outcome.err(), if whole { None } else { Some(WriteFault) });
        assert!(rt; BYTES.starts_with(&taken) && taken.len() == room.min(17));
    }
    let mut files = RealFiles::new(BrokenStreams);
    files.open("points")?;
    assert_eq!(rt;
        load(alloc, &mut files, 64).err(),
        Some(LoadFault::ReadFailed)
    );
    Ok(())
}
