//! Files and sinks in memory, asked otherwise than a run asks them.
ghost use Rattle.std.specs.Prelude.{◌≡◌, ◌≢◌, ℕ, ◌+◌, ◌≤◌, List, IfOk, IfSome};
ghost use Rattle.bnd_io.specs.Files.{Continues, bytes_of};

use crate::watched::Watched;
use bnd_io::{FileBytes, Files, MemSink, Sink, SureFiles, SureSink, load, write_all};
use std::alloc::{AllocError, Global};
use std::test::Fail;

/// Loads two files over one object. The counts go on from the one file to the other.
fn load_both<F: Files>(
    alloc: Global,
    files: &mut F,
    first: &str,
    second: &str,
) -> Result<(FileBytes, FileBytes), Fail>
    ensures continues { Continues (F.state files.old) (F.state files.new) }
    ensures first { IfOk result (λ both. IfSome (F.state files.old).told (λ folder. both.0 ≡ bytes_of folder first.now)) }
    ensures second { IfOk result (λ both. IfSome (F.state files.old).told (λ folder. both.1 ≡ bytes_of folder second.now)) }
    ensures once { first.now ≢ second.now → (F.state files.new).opens first.now ≤ (F.state files.old).opens first.now + 1 }
    ensures no_other { (name : List ℕ) → name ≢ first.now → name ≢ second.now → (F.state files.new).opens name ≡ (F.state files.old).opens name }
    ensures most { (F.state files.new).total ≤ (F.state files.old).total + 130 }
{
    files.open(first)?;
    let one = load(alloc, files, 64)?;
    files.open(second)?;
    let other = load(alloc, files, 64)?;
    Ok((one, other))
}

#[test]
fn each_file_is_opened_once(rt: HostRuntime) -> Result<(), Fail> {
    let alloc = rt.alloc();
    for (watched, opens) in [("points", 1), ("answer", 1), ("absent", 0)] {
        let mut files = SureFiles::new(alloc);
        // A name that is added again stands for the later bytes.
        files.add("points", b"old")?;
        files.add("points", b"0 0\n3 1\n")?;
        files.add("answer", b"")?;
        let mut files = Watched::new(alloc, files, watched)?;
        let (points, answer) = load_both(alloc, &mut files, "points", "answer")?;
        assert_eq!(rt; points.as_slice(), b"0 0\n3 1\n".as_slice());
        assert_eq!(rt; answer.as_slice(), b"".as_slice());
        assert_eq!(rt; files.opens, opens, "{watched}");
    }
    Ok(())
}

#[test]
fn reads_end_where_the_bytes_end(rt: HostRuntime) -> Result<(), Fail> {
    let mut files = SureFiles::new(rt.alloc());
    files.add("a", b"12345")?;
    files.open("a")?;
    let mut buf = [b'-'; 3];
    assert_eq!(rt; files.read(&mut buf)?, 3);
    assert_eq!(rt; buf.as_slice(), b"123".as_slice());
    assert_eq!(rt; files.read(&mut buf)?, 2);
    assert_eq!(rt; buf.as_slice(), b"453".as_slice());
    assert_eq!(rt; files.read(&mut buf)?, 0);
    assert_eq!(rt; buf.as_slice(), b"453".as_slice());
    Ok(())
}

/// Offers a piece once, and says how many of its bytes were taken.
fn offer(out: &mut SureSink, piece: &[u8]) -> Result<usize, Fail> {
    if piece.is_empty() {
        return Ok(0);
    }
    Ok(out.write(piece)?)
}

/// So many bytes of one value.
fn many(alloc: Global, count: usize) -> Result<Vec<u8>, AllocError> {
    vec![in alloc; b'x'; count]
}

#[test]
fn a_sure_sink_keeps_its_first_bytes(rt: HostRuntime) -> Result<(), Fail> {
    let alloc = rt.alloc();
    let mut out = SureSink::new(alloc)?;
    assert_eq!(rt; offer(&mut out, b"front ")?, 6);
    assert_eq!(rt; offer(&mut out, b"and more")?, 8);
    assert_eq!(rt; out.as_slice(), b"front and more".as_slice());
    let rest = many(alloc, 8_388_600)?;
    assert_eq!(rt; offer(&mut out, &rest)?, 8_388_600);
    assert_eq!(rt; out.as_slice().len(), 8_388_608);
    assert_eq!(rt; offer(&mut out, b"later")?, 5);
    assert_eq!(rt; out.as_slice().len(), 8_388_608);
    assert!(rt; out.as_slice().starts_with(b"front and morex"));
    Ok(())
}

/// Whether all the bytes are written.
fn is_written(out: &mut MemSink, bytes: &[u8]) -> bool {
    write_all(out, bytes).is_ok()
}

#[test]
fn a_sink_goes_on_behind_a_call_that_fails(rt: HostRuntime) -> Result<(), Fail> {
    let mut narrow = MemSink::new(rt.alloc(), 4)?;
    narrow.fail_at(2)?;
    assert!(rt; !is_written(&mut narrow, b"123456"));
    assert!(rt; is_written(&mut narrow, b"789"));
    assert_eq!(rt; narrow.as_slice(), b"1234789".as_slice());
    Ok(())
}
