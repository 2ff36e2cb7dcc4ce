//! A sink in memory that never fails, which tells its bytes as long as it keeps them all.
ghost use Rattle.std.specs.Prelude.{◌≡◌, ◌<◌, [], length, take, false, Ok, IfOk, IsSome, None};
ghost use Rattle.bnd_io.specs.Sinks.{Appended};
ghost use Rattle.bnd_io.specs.Sure.{sure_sink, kept_on};

use crate::{Failed, Sink};
use bounded_coords::OutOfMemory;
use std::alloc::Global;
use std::marker::Model;

/// A sink in memory that keeps the first 2^23 bytes, drops later ones, and never fails. Its room is reserved when it is
/// made, so a write takes no memory.
#[derive(Drop)]
pub struct SureSink {
    bytes: Vec<u8>,
    dropped: bool,
}

impl Model for SureSink {
    ghost use Rattle.std.specs.Prelude.{◌≤◌, ◌^◌, vec_len, vec_capacity};
    ghost use Rattle.bnd_io.specs.Sure.{SureSinkView};

    ghost Value = { SureSinkView };

    ghost view = { λ s. record { bytes = s.bytes.items; dropped = s.dropped } };

    ghost invariant = { λ s. record {
      room : 2 ^ 23 ≤ vec_capacity s.bytes;
      within : vec_len s.bytes ≤ 2 ^ 23;
    } };
}

const ROOM: usize = 1 << 23;

impl SureSink {
    /// The empty sink.
    pub fn new(alloc: Global) -> Result<SureSink, OutOfMemory>
        ensures { IfOk result (λ s. s ≡ record { bytes = []; dropped = false }) }
    {
        match Vec::with_capacity(alloc, ROOM) {
            Ok(bytes) => Ok(SureSink {
                bytes,
                dropped: false,
            }),
            Err(_) => Err(OutOfMemory),
        }
    }

    /// The bytes that were kept: the first 2^23 that were written.
    pub fn as_slice(&self) -> &[u8]
        ensures { result.now ≡ self.now.bytes }
    {
        &self.bytes
    }
}

impl Sink for SureSink {
    ghost state = { sure_sink };

    ghost last_count = { None };

    fn write(&mut self, piece: &[u8]) -> Result<usize, Failed>
        requires { 0 < length piece.now }
        ensures sure { result ≡ Ok (length piece.now) }
        ensures kept { self.new ≡ kept_on self.old piece.now }
        ensures told { IsSome (sure_sink self.new).told → IsSome (sure_sink self.old).told }
        ensures written { Appended (sure_sink self.old) (sure_sink self.new) (take (length piece.now) piece.now) }
    {
        let room = ROOM - self.bytes.len();
        let n = piece.len().min(room);
        match self.bytes.extend_from_slice(&piece[..n]) {
            Ok(()) => {}
            Err(_) => unreachable!(),
        }
        self.dropped |= n < piece.len();
        Ok(piece.len())
    }
}
